//! How a seat passes the time until it is served: it spins, then sleeps until it is woken.
use std::array;
use std::hint::spin_loop;
use std::sync::Wait;
use std::sync::atomic::AtomicU64;
use std::sync::atomic::Ordering::SeqCst;

/// The most seats of a lock.
const MOST_SEATS: usize = 64;

/// How often a seat spins before it sleeps, where its ticket comes next.
const SPINS_NEXT: u32 = 1000;

/// How often it does where others come before it.
const SPINS: u32 = 300;

/// What a word has whose seat is awake.
const AWAKE: u64 = 0;

/// What a word has whose seat sleeps, or will after one more look.
const ASLEEP: u64 = 1;

/// How a seat passes the time between two looks.
#[derive(Clone, Copy)]
pub(crate) enum Pause {
    /// It has spun so often.
    Spin(u32),
    /// It has marked its word, and looked once more.
    Sleep,
}

/// A word for each ticket that may be waited for. Tickets that are drawn and not passed on differ
/// by less than there are seats, so no two seats share a word.
///
/// A seat marks its word, looks, and sleeps while the mark stands. Whoever passes on stores the
/// ticket that is served first, and then looks for a mark, takes it away and wakes. So either the
/// seat sees that it is served, or its mark is seen: no wake-up is lost, and no clause says so.
#[derive(Drop)]
pub(crate) struct Sleepers {
    words: [AtomicU64; MOST_SEATS],
}

impl Sleepers {
    pub(crate) fn new() -> Sleepers {
        Sleepers {
            words: array::from_fn(|_| AtomicU64::new(AWAKE)),
        }
    }

    fn word(&self, ticket: u64) -> &AtomicU64 {
        &self.words[(ticket % MOST_SEATS as u64) as usize]
    }

    /// Passes the time after a look that found another ticket served, and says how to pass it after
    /// the next one. A processor is never yielded: beside other programs it would come back only
    /// after a slice of the scheduler's time, for each turn.
    pub(crate) fn pass_time<R: Wait>(
        &self,
        rt: &R,
        ticket: u64,
        served: u64,
        pause: Pause,
    ) -> Pause {
        let spins = if ticket.wrapping_sub(served) == 1 {
            SPINS_NEXT
        } else {
            SPINS
        };
        match pause {
            Pause::Spin(spun) if spun < spins => {
                spin_loop();
                Pause::Spin(spun + 1)
            }
            Pause::Spin(_) => {
                self.word(ticket).store(ASLEEP, SeqCst);
                Pause::Sleep
            }
            Pause::Sleep => {
                self.word(ticket).park(rt, ASLEEP as u32);
                Pause::Spin(0)
            }
        }
    }

    /// Wakes the seat that is served after this ticket, and the one that comes next: it spins while
    /// the other has its turn, and needn't be woken then.
    pub(crate) fn wake_next(&self, ticket: u64) {
        self.wake(ticket.wrapping_add(1));
        self.wake(ticket.wrapping_add(2));
    }

    fn wake(&self, ticket: u64) {
        let word = self.word(ticket);
        if word.load(SeqCst) == ASLEEP {
            word.store(AWAKE, SeqCst);
            word.wake_all();
        }
    }
}
