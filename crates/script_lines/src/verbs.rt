/// The first words of lines.
#[derive(Clone, Copy)]
pub enum Verb {
    Unit,
    Read,
    Write,
    Arrive,
    Turn,
    Move,
    Attend,
    Noise,
    Fault,
    Offline,
    Online,
    Lock,
    Unlock,
    Drain,
}
