ghost use Rattle.std.specs.Prelude.{◌≡◌, IfOk, false};

use super::files::{Stop, open_and_run};
use super::run_arguments;
use command_line::{Line, ReadFailure};
use commands::{AskedLanguage, Command, LanguageChoice, ReportForm};
use source_text::{FailurePlan, MemorySink};
use std::alloc::{AllocError, Global};
use std::test::Fail;

/// `check`, with places.
const CHECK: Command = Command::Check(ReportForm::Places);

/// An empty writer in memory with room for 1,024 bytes.
fn writer(alloc: Global) -> Result<MemorySink, AllocError>
    ensures { IfOk result (λ sink. sink.failed ≡ false) }
{
    let plan = FailurePlan {
        per_call: 64,
        fails_at: None,
    };
    MemorySink::new(alloc, 1024, plan)
}

/// A file that can't be read refuses the command, which writes nothing; the refusal has its name, and why.
#[test]
fn files_that_cannot_be_read(rt: HostRuntime) -> Result<(), Fail> {
    for (command, file, second, unread, failure) in [
        (
            Command::Fix,
            "no such file",
            None,
            "no such file",
            ReadFailure::Missing,
        ),
        (
            Command::Fix,
            "no/a.js",
            None,
            "no/a.js",
            ReadFailure::Missing,
        ),
        (
            Command::Fix,
            "/dev/null/a.js",
            None,
            "/dev/null/a.js",
            ReadFailure::Missing,
        ),
        (Command::Fix, ".", None, ".", ReadFailure::Folder),
        (Command::Fix, "", None, "", ReadFailure::Missing),
        (Command::Fix, "a\0b", None, "a\0b", ReadFailure::Other),
        (Command::Unwrap, ".", None, ".", ReadFailure::Folder),
        (CHECK, "/dev/null", Some("no"), "no", ReadFailure::Missing),
        (
            CHECK,
            "/dev/null",
            Some("/usr"),
            "/usr",
            ReadFailure::Folder,
        ),
        (CHECK, ".", Some("no"), "no", ReadFailure::Missing),
        (CHECK, ".", Some("/dev/null"), ".", ReadFailure::Folder),
        (
            Command::Verify,
            "/dev/null",
            Some("/"),
            "/",
            ReadFailure::Folder,
        ),
        (
            Command::Verify,
            "no",
            Some("/dev/null"),
            "no",
            ReadFailure::Missing,
        ),
    ] {
        let mut output = writer(rt.alloc())?;
        let line = Line {
            command,
            file,
            second,
            edition: None,
            is_module: false,
            is_any: false,
            is_list: false,
            commas: None,
        };
        let got = open_and_run(
            &rt,
            line,
            AskedLanguage::Said(LanguageChoice::Unsaid),
            &mut output,
        );
        assert_eq!(rt; got, Err(Stop::Unread(unread, failure)), "{line:?}");
        assert!(rt; output.bytes().is_empty(), "{line:?}");
    }
    Ok(())
}

/// A refusal is a line on the standard error, and nothing is written to the output.
#[test]
fn refusals_go_to_the_errors(rt: HostRuntime) -> Result<(), Fail> {
    let mut output = writer(rt.alloc())?;
    let mut errors = writer(rt.alloc())?;
    let status = run_arguments(
        &rt,
        &["jslint", "fix", "no such file"],
        &mut output,
        &mut errors,
    );
    assert_eq!(rt; status, 2);
    assert!(rt; output.bytes().is_empty());
    let line = "jslint: read failed: no such file: missing\n";
    assert_eq!(rt; errors.bytes(), line.as_bytes());
    let mut output = writer(rt.alloc())?;
    let mut errors = writer(rt.alloc())?;
    assert_eq!(rt;
        run_arguments(&rt, &["jslint", "fix"], &mut output, &mut errors),
        2
    );
    assert!(rt; output.bytes().is_empty());
    Ok(())
}

/// Words that ask for no language are refused in a line, and no file is opened.
#[test]
fn words_of_no_language(rt: HostRuntime) -> Result<(), Fail> {
    for (edition, is_module, line) in [
        ("2021", false, "jslint: --edition is 2020 or 2022\n"),
        ("", false, "jslint: --edition is 2020 or 2022\n"),
        ("es2022", true, "jslint: --edition is 2020 or 2022\n"),
        (
            "2020",
            true,
            "jslint: --module doesn't go with --edition 2020\n",
        ),
    ] {
        let mut output = writer(rt.alloc())?;
        let mut errors = writer(rt.alloc())?;
        let flag = if is_module { "--module" } else { "--" };
        let words = ["jslint", "fix", "--edition", edition, flag, "no such file"];
        let status = run_arguments(&rt, &words, &mut output, &mut errors);
        assert_eq!(rt; status, 2);
        assert!(rt; output.bytes().is_empty(), "{words:?}");
        assert_eq!(rt; errors.bytes(), line.as_bytes());
    }
    Ok(())
}

/// What is written of wrong words ends with what to type, where the first is no command and looks like a file.
#[test]
fn files_in_place_of_commands(rt: HostRuntime) -> Result<(), Fail> {
    for (words, tip) in [
        (["jslint", "app.js"], "\n\n  tip: jslint check app.js\n"),
        (["jslint", "a/b"], "\n\n  tip: jslint check a/b\n"),
        (["jslint", "né-1_.js"], "\n\n  tip: jslint check né-1_.js\n"),
        (["jslint", "app"], "try '--help'.\n"),
        (["jslint", "a b.js"], "try '--help'.\n"),
        (["jslint", "$(a).js"], "try '--help'.\n"),
        (["jslint", "a.js\n"], "try '--help'.\n"),
        (["jslint", "a.js\u{202e}"], "try '--help'.\n"),
        (["jslint", "-a.js"], "try '--help'.\n"),
        (["jslint", "--a.js"], "try '--help'.\n"),
        (["jslint", "check"], "try '--help'.\n"),
    ] {
        let mut output = writer(rt.alloc())?;
        let mut errors = writer(rt.alloc())?;
        let status = run_arguments(&rt, &words, &mut output, &mut errors);
        assert_eq!(rt; status, 2);
        assert!(rt; output.bytes().is_empty(), "{words:?}");
        assert!(rt; errors.bytes().ends_with(tip.as_bytes()), "{words:?}");
    }
    Ok(())
}

/// Help ends with status 0.
#[test]
fn help_is_shown(rt: HostRuntime) -> Result<(), Fail> {
    let mut output = writer(rt.alloc())?;
    let mut errors = writer(rt.alloc())?;
    assert_eq!(rt;
        run_arguments(&rt, &["jslint", "--help"], &mut output, &mut errors),
        0
    );
    assert!(rt; output.bytes().is_empty());
    assert!(rt; errors.bytes().is_empty());
    Ok(())
}
