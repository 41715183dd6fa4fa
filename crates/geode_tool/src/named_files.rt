ghost use Rattle.std.specs.Prelude.{◌≡◌, ◌≢◌, ◌↔◌, None, Err, map, IfOk, IfErr, IfSome};
ghost use Rattle.geode_tool.specs.Commands.{asked};
ghost use Rattle.geode_tool.specs.Places.{IsWanted};
ghost use Rattle.geode_tool.specs.declared.commands.Command.TheVariants as Command;

use crate::commands::{Command, command_of};
use crate::faults::{Fault, UsageKind};
use geom_core::Memory;
use std::alloc::Global;

/// What the words of a command line name outside of the program.
#[derive(Debug, Drop)]
pub struct Wanted {
    /// The page file, as the words name it, if the command names one.
    pub file: Option<String>,
    /// A second file with the same bytes. No command names one yet.
    pub mirror: Option<String>,
    /// The number of reads that each page source keeps. No command asks for a cache yet: 0.
    pub cache: u32,
    /// The number of page sources of the file that the command needs; 0 if it names no file.
    pub count: u32,
}

/// Returns what the words of a command line name. `words` are the command line without the program's name. Nothing is
/// read besides the words.
pub fn places(alloc: Global, words: &[&str]) -> Result<Wanted, Fault>
    // `Usage` is returned exactly if the words ask for no command, as of `geode`.
    ensures usage { (result ≡ Err (Fault.Usage UsageKind.Line)) ↔ (asked words.now ≡ None) }
    ensures wanted { IfOk result (λ wanted. IfSome (asked words.now)
        (IsWanted (map (λ w. w.now) words.now) wanted)) }
    ensures memory { IfErr result (λ fault. asked words.now ≢ None → fault ≡ Fault.Memory) }
{
    match command_of(words) {
        None => Err(Fault::Usage(UsageKind::Line)),
        Some(Command::Draw(_) | Command::Audit | Command::Make(_) | Command::Build) => {
            Ok(without_file())
        }
        Some(Command::Verify) => Ok(with_file(alloc, words)?),
    }
}

/// A command that names no file.
fn without_file() -> Wanted
    ensures { result ≡ record { file = None; mirror = None; cache = 0; count = 0 } }
{
    Wanted {
        file: None,
        mirror: None,
        cache: 0,
        count: 0,
    }
}

/// The file of `verify`, of which one page source is needed.
fn with_file(alloc: Global, words: &[&str]) -> Result<Wanted, Memory>
    ensures wanted { IfOk result (λ wanted. IsWanted (map (λ w. w.now) words.now) wanted Command.Verify) }
{
    let file = match words {
        [_name, file] => Some(String::from_str(alloc, file)?),
        _ => None,
    };
    Ok(Wanted {
        file,
        mirror: None,
        cache: 0,
        count: 1,
    })
}
