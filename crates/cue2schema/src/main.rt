// The program: its words, the files that they name, the standard streams and the exit status.
#![tactic(auto)]

use clap::ArgMatches;
use cs_fault_words::About;
use cs_run_ask::{check, compare, explain, judge, list, write_samples, write_widened};
use cs_run_call::{COMMAND_LINE, Call, Status, or_told, process_words, show};
use cs_run_export::export;
use cs_tool::{command, write_fault};
use std::process::ExitCode;

fn main(rt: HostRuntime) -> ExitCode {
    match answer(&rt) {
        Ok(status) => ExitCode::from(status),
        Err(fault) => {
            // A line that can't be written changes no status.
            let _ = write_fault(&fault, &mut rt.stderr());
            ExitCode::from(fault.status())
        }
    }
}

/// The status of the command that the words of the process give.
fn answer(rt: &HostRuntime) -> Status {
    let Some(words) = process_words(rt)? else {
        return Ok(COMMAND_LINE);
    };
    let command = command(rt.alloc())?;
    match command.try_get_matches_from(words.as_slice()) {
        Ok(matches) => answered(rt, &matches),
        Err(error) => show(rt, &error),
    }
}

/// The status of what the words ask for.
fn answered<'m>(rt: &'m HostRuntime, matches: &'m ArgMatches<'_>) -> Status {
    let Some((command, words)) = matches.subcommand() else {
        return Ok(COMMAND_LINE);
    };
    if words.contains_id("format") && words.get_str("why") == Some("closest") {
        let _ = eprintln!(rt;
            "error: '--format' tells reasons by itself; beside it only '--why=all' can be given"
        );
        return Ok(COMMAND_LINE);
    }
    let call = Call { rt, words };
    let answer = match command {
        "export" => export(call),
        "vet" | "validate" | "agree" => judge(call, command),
        "check" => check(call),
        "compare" => compare(call),
        "explain" => explain(call),
        "list" => list(call),
        "samples" => write_samples(call),
        "widen" => write_widened(call),
        _ => Ok(COMMAND_LINE),
    };
    or_told(call, About::of(&[], ""), answer)
}
