/// The first words of lines that tell of a unit.
#[derive(Clone, Copy)]
pub(crate) enum Verb {
    Cmd,
    Arrive,
    Sector,
    Intr,
    Try,
    Attn,
    End,
}

/// The words of commands.
#[derive(Clone, Copy)]
pub(crate) enum Command {
    Search,
    Seek,
    Recal,
    Offset,
    Centre,
    Clear,
    Pack,
    Write,
    Read,
}
