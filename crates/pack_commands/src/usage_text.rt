ghost use Rattle.std.specs.Prelude.{◌≡◌};
ghost use Rattle.pack_commands.specs.Words.{usage_text};

use mass_text::LineBuf;

/// The text that is printed if the words are no command.
#[tactic(auto, unfolding(crate::specs::Words::usage_text))]
pub fn usage() -> LineBuf
    ensures { result ≡ usage_text }
{
    let mut text = LineBuf::new();
    text.put("usage: hpsim play or bad144 list/add/fresh or exercise N\n");
    text
}
