//! Why a line has no answer.
use kr_base::{NoMemory, Spent};
use std::alloc::{AllocError, AllocFailed, Global};

/// Why a line has no answer.
#[derive(Clone, Copy)]
pub enum Wrong {
    /// It isn't of the form, or it asks for what a call doesn't allow.
    Form,
    /// There is no memory for it.
    Memory,
}

impl From<AllocError> for Wrong {
    fn from(_error: AllocError) -> Wrong {
        Wrong::Memory
    }
}

impl<T: Drop> From<AllocFailed<T>> for Wrong {
    fn from(_error: AllocFailed<T>) -> Wrong {
        Wrong::Memory
    }
}

impl<T: Drop> From<(NoMemory, T)> for Wrong {
    fn from(_error: (NoMemory, T)) -> Wrong {
        Wrong::Memory
    }
}

impl From<NoMemory> for Wrong {
    fn from(_error: NoMemory) -> Wrong {
        Wrong::Memory
    }
}

impl From<Spent> for Wrong {
    fn from(_error: Spent) -> Wrong {
        Wrong::Form
    }
}

/// What is printed for a line: its answer, or `line` where it isn't of the form.
pub fn answer_or_line(
    alloc: Global,
    answer: Result<Vec<u8>, Wrong>,
) -> Result<Vec<u8>, AllocError> {
    match answer {
        Ok(text) => Ok(text),
        Err(Wrong::Form) => b"line\n".to_vec(alloc),
        Err(Wrong::Memory) => Err(AllocError),
    }
}
