//! A link to a plugin over its lines, as over the pipes of a child program.
ghost use Rattle.std.specs.Prelude.{◌≡◌, false, is_some, ⊤};
ghost use Rattle.kr_base.specs.Numbering.{next_number};
ghost use Rattle.kr_kms.specs.Calls.{AsksLink, Says, Wraps, asked_key};
ghost use Rattle.kr_kms.specs.Exchanges.{StatusCall, WrapCall, UnwrapCall};
ghost use Rattle.kr_kms.specs.Limits.{IsWithinLimits};
ghost use Rattle.kr_kms_wire.specs.declared.replies.Asked.{Asked};
ghost use Rattle.kr_kms_wire.specs.declared.replies.Reply.{Reply};
ghost use Rattle.kr_kms_wire.specs.declared.requests.Request.{Request};
ghost use Rattle.kr_edge.specs.Lines.{ends_of};
ghost use Rattle.kr_edge.specs.Links.{LineStep, line_keeps, line_tells};
ghost use Rattle.kr_edge.specs.Plugins.{AnswersRequest, CountsFailures, line_link};
ghost use Rattle.kr_edge.specs.SystemCalls.{has_ends};
ghost use Rattle.kr_edge.specs.Wiped.{IsWiped};

use crate::answer_room::AnswerRoom;
use crate::plugin_lines::PluginLines;
use kr_base::{Bytes, Text};
use kr_kms::{Kms, KmsNo, Status, Wrapped, WrappedRef};
use std::alloc::Global;
use std::io::{Read, Write};
use std::process::{Child, ChildStdin, ChildStdout, SystemProcess};

/// A link to a plugin of which each call is one of its lines. It keeps what runs the plugin.
pub struct LineLink<C, W, R> {
    name: Text,
    child: C,
    lines: PluginLines<W, R>,
}

/// A link to a plugin that is a child program: it reads requests from its input and writes replies
/// to its output. A link has no way to stop a program that neither answers nor ends.
pub type ChildLink = LineLink<Child<SystemProcess>, ChildStdin, ChildStdout>;

/// A started child with its pipes. It can't be dropped: `close` ends it, or a link takes it over.
pub struct ChildEnds {
    child: Child<SystemProcess>,
    input: ChildStdin,
    output: ChildStdout,
}

/// The pipes of a started child. One that lacks a pipe is ended.
pub fn take_ends(mut child: Child<SystemProcess>) -> Option<ChildEnds>
    ensures { is_some result ≡ has_ends child }
{
    let input = child.stdin.take();
    let output = child.stdout.take();
    match (input, output) {
        (Some(input), Some(output)) => Some(ChildEnds {
            child,
            input,
            output,
        }),
        (input, output) => {
            drop(input);
            drop(output);
            end(child);
            None
        }
    }
}

impl ChildEnds {
    /// Closes the pipes, ends the child and waits for it.
    pub fn close(self) {
        let ChildEnds {
            child,
            input,
            output,
        } = self;
        drop(input);
        drop(output);
        end(child);
    }
}

impl ChildLink {
    /// A link to the plugin of that name over a started child, with no fault so far.
    pub fn first(name: Text, ends: ChildEnds, room: AnswerRoom) -> ChildLink
        ensures name { result.name ≡ name }
        ensures faults { result.lines.faults ≡ 0 }
        ensures child { result.child ≡ ends.child }
        ensures input { result.lines.exchange.input.writer ≡ ends.input }
        ensures output { result.lines.exchange.output.reader ≡ ends.output }
        ensures whole { result.lines.exchange.broken ≡ false }
        ensures uid { result.lines.uid ≡ 0 }
    {
        ChildLink::new(name, ends, room, 0)
    }

    /// A link to the plugin of that name over a started child, which failed so often before.
    pub fn new(name: Text, ends: ChildEnds, room: AnswerRoom, faults: u64) -> ChildLink
        ensures name { result.name ≡ name }
        ensures faults { result.lines.faults ≡ faults }
        ensures child { result.child ≡ ends.child }
        ensures input { result.lines.exchange.input.writer ≡ ends.input }
        ensures output { result.lines.exchange.output.reader ≡ ends.output }
        ensures whole { result.lines.exchange.broken ≡ false }
        ensures uid { result.lines.uid ≡ 0 }
    {
        let ChildEnds {
            child,
            input,
            output,
        } = ends;
        ChildLink {
            name,
            child,
            lines: PluginLines::new(input, output, room, faults),
        }
    }

    /// Closes the pipes, ends the child and waits for it; a plugin keeps nothing between lines.
    /// Answers how often the link failed.
    pub fn close(self) -> u64
        ensures { result ≡ self.lines.faults }
    {
        let ChildLink { name, child, lines } = self;
        let faults = lines.faults();
        drop(name);
        drop(lines);
        end(child);
        faults
    }
}

impl<C, W: Write, R: Read> Kms for LineLink<C, W, R> {
    ghost link = { λ link. line_link link.name link.lines.faults };

    ghost step = { LineStep W.contents R.remaining };

    ghost keeps = { line_keeps W.contents R.remaining };

    ghost tells = { line_tells W.contents R.remaining };

    fn name(&self) -> &str {
        self.name.as_str()
    }

    fn faults(&self) -> u64 {
        self.lines.faults()
    }

    fn status(&mut self, alloc: Global) -> Result<Status, KmsNo>
        ensures answers { AnswersRequest Reply.Status (λ _. ⊤)
            (ends_of W.contents R.remaining self.old.lines.exchange)
            (ends_of W.contents R.remaining self.new.lines.exchange)
            Asked.Status Request.Status result }
        ensures uid { self.new.lines.uid ≡ self.old.lines.uid }
        ensures once { CountsFailures result self.old.lines.faults self.new.lines.faults }
        ensures wiped { IsWiped self.new.lines.exchange.line.line.items }

        // As the trait says.
        ensures says { Says (line_link self.old.name self.old.lines.faults) result
            (line_link self.new.name self.new.lines.faults) }
        ensures asked { LineStep W.contents R.remaining self.old
            (StatusCall self.old.name result) self.new }
    {
        self.lines.status(alloc)
    }

    fn wrap(&mut self, alloc: Global, plain: &[u8]) -> Result<Wrapped, KmsNo>
        ensures answers { AnswersRequest Reply.Encrypt IsWithinLimits
            (ends_of W.contents R.remaining self.old.lines.exchange)
            (ends_of W.contents R.remaining self.new.lines.exchange)
            Asked.Encrypt (Request.Encrypt plain.now (next_number self.old.lines.uid)) result }
        ensures uid { self.new.lines.uid ≡ next_number self.old.lines.uid }
        ensures once { CountsFailures result self.old.lines.faults self.new.lines.faults }
        ensures wiped { IsWiped self.new.lines.exchange.line.line.items }

        // As the trait says.
        ensures wraps { Wraps (line_link self.old.name self.old.lines.faults) result
            (line_link self.new.name self.new.lines.faults) }
        ensures asked { LineStep W.contents R.remaining self.old
            (WrapCall self.old.name plain.now result) self.new }
    {
        self.lines.wrap(alloc, plain)
    }

    fn unwrap_source(&mut self, alloc: Global, wrapped: &WrappedRef<'_>) -> Result<Bytes, KmsNo>
        ensures answers { AnswersRequest Reply.Decrypt (λ _. ⊤)
            (ends_of W.contents R.remaining self.old.lines.exchange)
            (ends_of W.contents R.remaining self.new.lines.exchange)
            Asked.Decrypt (Request.Decrypt wrapped.now.cipher.now wrapped.now.key_id.now
            wrapped.now.annotations.now (next_number self.old.lines.uid)) result }
        ensures uid { self.new.lines.uid ≡ next_number self.old.lines.uid }
        ensures once { CountsFailures result self.old.lines.faults self.new.lines.faults }
        ensures wiped { IsWiped self.new.lines.exchange.line.line.items }

        // As the trait says.
        ensures unwraps { AsksLink (line_link self.old.name self.old.lines.faults) result
            (line_link self.new.name self.new.lines.faults) }
        ensures asked { LineStep W.contents R.remaining self.old (UnwrapCall (asked_key
            self.old.name wrapped.now.key_id.now wrapped.now.annotations.now wrapped.now.cipher.now)
            result) self.new }
    {
        self.lines.unwrap_source(alloc, wrapped)
    }
}

/// Ends a child and waits for it, which frees its number. Our ends of its pipes are closed before,
/// since one that may not be ended, as it is another user's, may end by itself at its input's end.
fn end(mut child: Child<SystemProcess>) {
    let _ended = child.kill();
    let _status = child.wait();
}
