//! Writing what a fleet file says.
ghost use Rattle.std.specs.Prelude.{◌≡◌, ◌++◌, map, IfOk};
ghost use Rattle.std.specs.List.{flat_map};
ghost use Rattle.std.specs.String.{string_bytes};
ghost use Rattle.kr_script.specs.Fleets.{fleet_of, worker_of};
ghost use Rattle.test_script.specs.FleetText.{hex_text, names_text, words_text, replica_text, line_text};
ghost use Rattle.test_script.specs.FleetText.{worker_text, fleet_text, head_text, number_text};

use itoa::Buffer;
use kr_base::Text;
use kr_script::{Part, Script, ScriptLine};
use std::alloc::{AllocError, Global};

/// Adds the script's text.
pub fn write_script(alloc: Global, out: &mut String, script: &Script) -> Result<(), AllocError>
    ensures { IfOk result (λ done. string_bytes out.new
        ≡ string_bytes out.old ++ fleet_text (fleet_of script.now)) }
{
    write_replicas(alloc, out, script.replicas.as_slice())?;
    write_workers(alloc, out, script.workers.as_slice())
}

#[tactic(auto, using(crate::proofs::Loops::texts_more, crate::proofs::Loops::texts_end))]
fn write_replicas(
    alloc: Global,
    out: &mut String,
    replicas: &[(Text, Text)],
) -> Result<(), AllocError>
    ensures { IfOk result (λ done. string_bytes out.new
        ≡ string_bytes out.old ++ flat_map replica_text replicas.now) }
{
    for replica in replicas {
        write_replica(alloc, out, replica)?;
    }
    Ok(())
}

#[tactic(auto, using(crate::proofs::Loops::texts_more))]
fn write_workers(alloc: Global, out: &mut String, workers: &[Part]) -> Result<(), AllocError>
    ensures { IfOk result (λ done. string_bytes out.new
        ≡ string_bytes out.old ++ flat_map worker_text (map worker_of workers.now)) }
{
    for worker in workers {
        write_worker(alloc, out, worker)?;
    }
    Ok(())
}

fn write_replica(alloc: Global, out: &mut String, replica: &(Text, Text)) -> Result<(), AllocError>
    ensures { IfOk result (λ done. string_bytes out.new
        ≡ string_bytes out.old ++ replica_text replica.now) }
{
    out.push_str("replica")?;
    write_names(alloc, out, &replica.0, &replica.1)?;
    out.push_str(";")
}

fn write_names(alloc: Global, out: &mut String, name: &Text, file: &Text) -> Result<(), AllocError>
    ensures { IfOk result (λ done. string_bytes out.new
        ≡ string_bytes out.old ++ names_text name.now file.now) }
{
    write_text(alloc, out, name)?;
    write_text(alloc, out, file)
}

fn write_worker(alloc: Global, out: &mut String, worker: &Part) -> Result<(), AllocError>
    ensures { IfOk result (λ done. string_bytes out.new
        ≡ string_bytes out.old ++ worker_text (worker_of worker.now)) }
{
    write_head(alloc, out, worker)?;
    write_lines(alloc, out, worker.lines.as_slice())
}

#[tactic(auto, using(crate::proofs::Loops::texts_more, crate::proofs::Loops::texts_end))]
fn write_lines(alloc: Global, out: &mut String, lines: &[ScriptLine]) -> Result<(), AllocError>
    ensures { IfOk result (λ done. string_bytes out.new
        ≡ string_bytes out.old ++ flat_map line_text lines.now) }
{
    for line in lines {
        write_line(alloc, out, line)?;
    }
    Ok(())
}

fn write_head(alloc: Global, out: &mut String, worker: &Part) -> Result<(), AllocError>
    ensures { IfOk result (λ done. string_bytes out.new
        ≡ string_bytes out.old ++ head_text worker.now.name worker.now.replica) }
{
    out.push_str("worker")?;
    write_text(alloc, out, &worker.name)?;
    write_number(out, worker.replica)?;
    out.push_str(";")
}

fn write_line(alloc: Global, out: &mut String, line: &ScriptLine) -> Result<(), AllocError>
    ensures { IfOk result (λ done. string_bytes out.new
        ≡ string_bytes out.old ++ line_text line.now) }
{
    write_words(alloc, out, line)?;
    out.push_str(";")
}

fn write_words(alloc: Global, out: &mut String, line: &ScriptLine) -> Result<(), AllocError>
    ensures { IfOk result (λ done. string_bytes out.new
        ≡ string_bytes out.old ++ words_text line.now) }
{
    match line {
        ScriptLine::Put {
            resource,
            path,
            plain,
        } => {
            out.push_str("put")?;
            write_text(alloc, out, resource)?;
            write_text(alloc, out, path)?;
            write_bytes(alloc, out, plain.as_slice())
        }
        ScriptLine::Get { path } => {
            out.push_str("get")?;
            write_text(alloc, out, path)
        }
        ScriptLine::Delete { path } => {
            out.push_str("delete")?;
            write_text(alloc, out, path)
        }
        ScriptLine::Rewrite => out.push_str("rewrite"),
        ScriptLine::Reload { replica, file } => {
            out.push_str("reload")?;
            write_number(out, *replica)?;
            write_text(alloc, out, file)
        }
        ScriptLine::Refresh => out.push_str("refresh"),
        ScriptLine::Join { replica, file } => {
            out.push_str("join")?;
            write_number(out, *replica)?;
            write_text(alloc, out, file)
        }
        ScriptLine::Leave { replica } => {
            out.push_str("leave")?;
            write_number(out, *replica)
        }
    }
}

/// Adds a space and the text in hex.
fn write_text(alloc: Global, out: &mut String, text: &Text) -> Result<(), AllocError>
    ensures { IfOk result (λ done. string_bytes out.new
        ≡ string_bytes out.old ++ hex_text text.now) }
{
    write_bytes(alloc, out, text.as_str().as_bytes())
}

/// Adds a space and the bytes in hex.
fn write_bytes(alloc: Global, out: &mut String, bytes: &[u8]) -> Result<(), AllocError>
    ensures { IfOk result (λ done. string_bytes out.new
        ≡ string_bytes out.old ++ hex_text bytes.now) }
{
    let digits = hex::encode(alloc, bytes)?;
    out.push_str(" ")?;
    out.push_str(digits.as_str())
}

/// Adds a space and the number.
fn write_number(out: &mut String, number: u32) -> Result<(), AllocError>
    ensures { IfOk result (λ done. string_bytes out.new
        ≡ string_bytes out.old ++ number_text number) }
{
    let mut digits = Buffer::new();
    out.push_str(" ")?;
    out.push_str(digits.format(number))
}
