// The files that words name.

/// A file that a command reads or writes.
#[derive(Clone, Copy, Debug, PartialEq, Eq)]
pub enum FileWord {
    Stages,
    Tables,
    Arcs,
    /// The edits of a session.
    Script,
    Plan,
    /// A certificate.
    Cert,
}

/// How a command names the files that it writes, by the name that stands at their key.
#[derive(Clone, Copy, Debug, PartialEq, Eq)]
pub enum Naming {
    /// One file, of that name.
    Whole,
    /// A file for each answer: that name, a dash and the answer's number, from 1 on.
    Numbered,
}
