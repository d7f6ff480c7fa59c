//! What seats ask, by words.
//!
//!     adopt REPLICA, leave REPLICA, letgo
//!     fetch PATH, after PATH, delete PATH
//!     put PATH RESOURCE HEX            sealed by what the seat holds
//!     replace                          the row that the seat found last, sealed anew by that
//!     reload REPLICA NAME EXPECTED, join REPLICA NAME
use crate::configuration::Named;
use crate::line_text::add_line;
use crate::play::{Play, Stage};
use crate::request::Request;
use crate::table::Table;
use kr_base::Text;
use kr_rollout::{Event, Gave};
use std::alloc::Global;
use test_support::{
    Checks, Page, Wrong, add_parts, first_word, own_text_or_empty, parse_number, parse_option,
    split_number, split_put, two_words,
};

impl Play {
    /// `SEAT EVENT`: makes the event, and prints its line; of a core with one caller at its close.
    pub fn once(&mut self, alloc: Global, page: &mut Page, rest: &str) -> Result<(), Wrong> {
        let (seat, event) = split_number(rest)?;
        let request = parse_request(alloc, &self.named, event)?;
        self.ask(alloc, seat, request)?;
        match &self.stage {
            Stage::Running(table) => add_last(alloc, page, table, seat),
            _ => Ok(()),
        }
    }

    /// Asks this of the core for the seat, if it may ask for it.
    fn ask(&mut self, alloc: Global, seat: u32, request: Request) -> Result<(), Wrong> {
        match &mut self.stage {
            Stage::Running(table) => table.ask(alloc, seat, request),
            Stage::Alone(alone) => alone.ask(alloc, seat, request),
            _ => request.refused(),
        }
    }

    /// `TIMES SEAT REPLICA NAME NAME`: reloads the replica as often with the two configurations in
    /// turn, and prints the last line and how many there are.
    pub fn turns(&mut self, alloc: Global, page: &mut Page, rest: &str) -> Result<(), Wrong> {
        let (times, rest) = split_number(rest)?;
        let (seat, rest) = split_number(rest)?;
        let (replica, names) = split_number(rest)?;
        let (first, second) = two_words(names)?;
        self.table()?;
        for turn in 0..times {
            let name = if turn % 2 == 0 { first } else { second };
            self.turn(alloc, seat, replica, name)?;
        }
        add_turns(alloc, page, self.table()?, seat)
    }

    /// Reloads the replica with the configuration.
    fn turn(&mut self, alloc: Global, seat: u32, replica: u32, name: &str) -> Result<(), Wrong> {
        let request = reload_request(&self.named, replica, name, None)?;
        self.ask(alloc, seat, request)
    }
}

/// The last line of the journal, and how many there are.
fn add_turns(alloc: Global, page: &mut Page, table: &Table, seat: u32) -> Result<(), Wrong> {
    add_last(alloc, page, table, seat)?;
    page.counted("lines", table.journal().len() as u64);
    page.end_line();
    Ok(())
}

fn parse_request(alloc: Global, named: &Named, event: &str) -> Result<Request, Wrong> {
    let (key, rest) = first_word(event);
    match key {
        "put" => putting(alloc, rest),
        "replace" => Ok(Request::Replace),
        "letgo" => Ok(Request::Plain(Event::LetGo)),
        "fetch" | "after" | "delete" => Ok(about_path(key, own_text_or_empty(alloc, rest)?)),
        "reload" | "join" => bringing(named, key, rest),
        _ => about_replica(key, parse_number(rest)?),
    }
}

/// `PATH RESOURCE HEX`.
fn putting(alloc: Global, rest: &str) -> Result<Request, Wrong> {
    let ((path, resource), plain) = split_put(alloc, rest)?;
    Ok(Request::Put {
        path,
        resource,
        plain,
    })
}

fn about_path(key: &str, path: Text) -> Request {
    match key {
        "fetch" => Request::Plain(Event::Fetch { path }),
        "after" => Request::Plain(Event::After { path }),
        _ => Request::Plain(Event::Delete { path }),
    }
}

fn about_replica(key: &str, replica: u32) -> Result<Request, Wrong> {
    match key {
        "adopt" => Ok(Request::Plain(Event::Adopt { replica })),
        "leave" => Ok(Request::Plain(Event::Leave { replica })),
        _ => Err(Wrong::Form),
    }
}

/// `REPLICA NAME`, and for a reload `EXPECTED` behind it.
fn bringing(named: &Named, key: &str, rest: &str) -> Result<Request, Wrong> {
    let (replica, rest) = split_number(rest)?;
    if key == "join" {
        let published = named.share(rest)?;
        return Ok(Request::Plain(Event::Join { replica, published }));
    }
    let (name, expect) = two_words(rest)?;
    reload_request(named, replica, name, parse_option(expect)?)
}

fn reload_request(
    named: &Named,
    replica: u32,
    name: &str,
    expect: Option<u32>,
) -> Result<Request, Wrong> {
    let published = named.share(name)?;
    Ok(Request::Plain(Event::Reload {
        replica,
        published,
        expect,
    }))
}

/// The last line of the journal; behind a row that was found its parts.
fn add_last(alloc: Global, page: &mut Page, table: &Table, seat: u32) -> Result<(), Wrong> {
    let Some(line) = table.journal().last() else {
        return Err(Wrong::Form);
    };
    add_line(alloc, page, line);
    if let Gave::Found { .. } = &line.gave {
        add_parts(page, table.found(seat)?, Checks::Told);
    }
    page.end_line();
    Ok(())
}
