//! The lines, of words parted by single spaces. What isn't of the form, or asks for what the core
//! doesn't allow, is answered by `line`.
//!
//!     settings NAME JSON               a configuration in one line
//!     store HEX LIMIT FAILS            a store of these bytes; the writes of these numbers fail
//!     row PATH RESOURCE CHECK HEX      puts this value as it stands
//!     start ROOM RELOADS NAMES         a core over the store: its journal's room, how many
//!                                      configurations each seat may bring, and each replica's
//!                                      configuration, `-` for one that is out
//!     solo ROOM RELOADS NAMES          the same, of which seat 0 is the only caller
//!     board ROOM NAMES                 prints the live generations' numbers of the store's board
//!     do SEAT EVENT                    prints the line, and of a row that is found its parts; of
//!                                      an only caller nothing
//!     turns TIMES SEAT REPLICA NAME NAME
//!                                      reloads the replica with the two in turn, and prints the
//!                                      last line and how many there are
//!     live                             prints the numbers of the live generations
//!     close                            gives the store back, and prints its rows; before them, of
//!                                      an only caller, its lines
//!     # TEXT                           says nothing
use crate::play::{Callers, Play};
use crate::stored::put_row;
use std::alloc::{AllocError, Global};
use test_support::{Answers, Page, Wrong, answer_or_line, first_word, load_store};

/// How many bytes a tape may have.
const ROOM: usize = 65_536;

impl Answers for Play {
    fn answer(&mut self, alloc: Global, line: &str) -> Result<Vec<u8>, AllocError> {
        answer_or_line(alloc, print_line(alloc, self, line))
    }
}

/// What the line prints.
fn print_line(alloc: Global, play: &mut Play, line: &str) -> Result<Vec<u8>, Wrong> {
    let mut page = Page::new(alloc);
    match act(alloc, play, &mut page, line) {
        Ok(()) => page.into_bytes(),
        Err(why) => {
            drop(page);
            Err(why)
        }
    }
}

fn act(alloc: Global, play: &mut Play, page: &mut Page, line: &str) -> Result<(), Wrong> {
    let (key, rest) = first_word(line);
    match key {
        "#" => Ok(()),
        "settings" => play.named.add(alloc, rest),
        "store" => {
            play.begin(load_store(alloc, rest, ROOM)?);
            Ok(())
        }
        "row" => put_row(alloc, play.store()?, page, rest),
        "start" => play.start(alloc, page, Callers::Several, rest),
        "solo" => play.start(alloc, page, Callers::Only, rest),
        "board" => play.board(alloc, page, rest),
        "do" => play.once(alloc, page, rest),
        "turns" => play.turns(alloc, page, rest),
        "live" => play.live(page),
        "close" => play.close(alloc, page),
        _ => Err(Wrong::Form),
    }
}
