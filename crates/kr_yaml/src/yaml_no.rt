//! Why a text wasn't read.

/// Why a text wasn't read. A line's number counts from 1.
#[derive(Clone, Copy)]
pub enum YamlNo {
    /// A line isn't of the profile. It is looked for in all lines before anything else.
    Outside {
        /// The first such line.
        line: u32,
    },
    /// The tokens up to one on this line form no tree.
    Indent {
        /// The line.
        line: u32,
    },
    /// A key on this line stands in its mapping already.
    DuplicateKey {
        /// The line.
        line: u32,
    },
    /// The tree has more than 16 levels of lists and mappings from this line on. A flow value
    /// counts none.
    Deep {
        /// The line.
        line: u32,
    },
    /// There was no memory.
    NoMemory,
}
