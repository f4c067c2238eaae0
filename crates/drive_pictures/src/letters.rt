//! The letters of a drive: what it does after an event, until the next event.

ghost use Rattle.std.specs.Prelude.{◌≡◌, ◌<◌};
ghost use Rattle.drive_pictures.specs.Letters.{all_letters, number_of, is_positioning, is_moving};

/// What a drive does after an event, until the next event. `letter_word` says it in words.
#[derive(Clone, Copy, Default, PartialEq, Eq)]
pub enum Letter {
    #[default]
    Idle,
    Seeks,
    /// Its arm has reached the cylinder, and it turns to a sector.
    Turns,
    Recalibrates,
    Offsets,
    /// It has arrived, and its attention is up.
    Arrived,
    /// It is ready, and its adapter is busy; or its request only waits.
    Ready,
    Moves,
    Retries,
    Replaces,
    /// Its sectors have moved, and its interrupt is up.
    Moved,
}

/// All letters.
static ALL: [Letter; 11] = [
    Letter::Idle,
    Letter::Seeks,
    Letter::Turns,
    Letter::Recalibrates,
    Letter::Offsets,
    Letter::Arrived,
    Letter::Ready,
    Letter::Moves,
    Letter::Retries,
    Letter::Replaces,
    Letter::Moved,
];

/// All letters, each once, in the order of a legend.
pub fn all_letters() -> &'static [Letter]
    ensures { result.now ≡ all_letters }
{
    &ALL
}

impl Letter {
    /// Its number in the order of a legend, from 0.
    pub fn number(self) -> usize
        ensures value { result ≡ number_of self }
        ensures bound { result < 11 }
    {
        self as usize
    }

    /// Whether a seek, a search, a recalibration or an offset is under way.
    pub fn is_positioning(self) -> bool
        ensures { result ≡ is_positioning self }
    {
        matches!(
            self,
            Letter::Seeks | Letter::Turns | Letter::Recalibrates | Letter::Offsets
        )
    }

    /// Whether its sectors move.
    pub fn is_moving(self) -> bool
        ensures { result ≡ is_moving self }
    {
        matches!(self, Letter::Moves | Letter::Retries | Letter::Replaces)
    }
}
