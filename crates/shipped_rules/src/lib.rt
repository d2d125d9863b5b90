#![tactic(auto)]

//! The rules that ship with the program: runs of a command with those of `rules`. `check` and `mend` have them, no other command has any.
//! - May touch: what `run` of `lint` may. It names no rule: `rules` has the list.
//! - Contract: `run_with_rules` promises what `lint` promises of a run, with these rules.
//! - Begin at: `lib.rt`, `run_with_rules`. Definitions: `specs/ShippedRules.antt`.

ghost use Rattle.std.specs.Prelude.{◌≡◌, ◌≢◌, IfErr, false};
ghost use Rattle.source_text.specs.declared.fault.Fault.TheVariants.{Usage};
ghost use Rattle.shipped_rules.specs.ShippedRules.{RunsByRules, rules_of};

use commands::{AskedLanguage, Command, Refused};
use lint::run::run;
use rules::{RULES, RuleName};
use source_text::{Feed, Sink};
use std::alloc::Global;

/// The rules that a command has.
fn rules_of(command: Command) -> &'static [RuleName]
    ensures { result.now ≡ rules_of command }
{
    match command {
        Command::Check(_) | Command::Mend => RULES.as_slice(),
        _ => &[],
    }
}

/// Runs a command over its two readers and a writer, with the rules of `rules` where it is `check` or `mend`.
///
/// # Errors
///
/// Those of `lint::run::run`, in its order.
pub fn run_with_rules<F: Feed, S: Feed, W: Sink>(
    alloc: Global,
    command: Command,
    asked: AskedLanguage,
    file: &mut F,
    second: &mut S,
    output: &mut W,
) -> Result<u8, Refused>
    requires reads { F.failed file.old ≡ false }
    requires reads_second { S.failed second.old ≡ false }
    requires writes { W.failed output.old ≡ false }
    ensures told { IfErr result (λ refused. refused.fault ≢ Usage) }
    ensures answer { RunsByRules command asked (record {
      given = F.left file.old;
      second = S.left second.old;
      before = W.taken output.old;
      after = W.taken output.new;
      reader_failed = F.failed file.new;
      second_failed = S.failed second.new;
      writer_failed = W.failed output.new;
    }) result }
{
    let names = rules_of(command);
    run(alloc, command, asked, names, &[], file, second, output)
}
