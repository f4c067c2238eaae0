/// Which lines a script may have.
#[derive(Clone, Copy, Debug)]
pub enum Dialect {
    /// All lines. No id is used twice.
    Events,
    /// Lines for the cache: `unit`, `read` and `write` of whole blocks of partition `c`, and `sync`. Ids may repeat.
    Cached,
}
