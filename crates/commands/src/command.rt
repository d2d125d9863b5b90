//! The commands of the program.

ghost use Rattle.std.specs.Prelude.{◌≡◌};
ghost use Rattle.commands.specs.Commands.{word_of};

/// What a line of `check` says of where a report is.
#[derive(Clone, Copy, Debug, PartialEq, Eq)]
pub enum ReportForm {
    /// Line and column of its start.
    Places,
    /// Its start and its end, in bytes from 0.
    Spans,
}

/// Where a list that is broken over lines has a last comma.
#[derive(Clone, Copy, Debug, PartialEq, Eq)]
pub enum CommaChoice {
    /// No list has one.
    Nowhere,
    /// Lists but arguments and parameters.
    Lists,
    /// All lists that may have one.
    Everywhere,
}

/// How `format` is to write a script.
#[derive(Clone, Copy, Debug, PartialEq, Eq)]
pub struct FormatChoice {
    /// The columns of a line.
    pub width: u16,
    /// The columns of a level of indentation.
    pub indent: u8,
    /// Whether a level is a tab, in place of spaces.
    pub tabs: bool,
    pub commas: CommaChoice,
    /// Whether the one plain parameter of an arrow has no parentheses.
    pub bare_arrows: bool,
    /// Whether the text has the fewest pairs of parentheses, and not its own.
    pub fewest: bool,
    /// Whether the text is compared with the script, and not written.
    pub check: bool,
}

impl FormatChoice {
    /// What a call that says nothing of it gets.
    pub const DEFAULT: FormatChoice = FormatChoice {
        width: 80,
        indent: 2,
        tabs: false,
        commas: CommaChoice::Everywhere,
        bare_arrows: false,
        fewest: false,
        check: false,
    };
}

/// What the program is asked to do with a script.
#[derive(Clone, Copy, Debug, PartialEq, Eq)]
pub enum Command {
    /// Write what the rules find in the script, in this form.
    Check(ReportForm),
    /// Write the tree of the script, as JSON, and a line feed.
    Tree,
    /// Write the fixed text of the script.
    Fix,
    /// Write the script as it is, without its unnecessary parentheses.
    Unwrap,
    /// Write the script as it is, but with the safe changes for what the rules find in it.
    Mend,
    /// Write the script in lines of a width, with its comments, in this way.
    Format(FormatChoice),
    /// Write the cost table of the script.
    Cost,
    /// Check a cost table against the script.
    Verify,
    /// Tell by the status whether another script has the same tree.
    Same,
}

impl Command {
    /// One of each word: `check` with places, `format` as a call gets it that says nothing more.
    pub const ALL: [Command; 9] = [
        Command::Check(ReportForm::Places),
        Command::Tree,
        Command::Fix,
        Command::Unwrap,
        Command::Mend,
        Command::Format(FormatChoice::DEFAULT),
        Command::Cost,
        Command::Verify,
        Command::Same,
    ];

    /// The word for it on the command line.
    pub fn word(self) -> &'static str
        ensures { result.now ≡ word_of self }
    {
        match self {
            Command::Check(_) => "check",
            Command::Tree => "tree",
            Command::Fix => "fix",
            Command::Unwrap => "unwrap",
            Command::Mend => "mend",
            Command::Format(_) => "format",
            Command::Cost => "cost",
            Command::Verify => "verify",
            Command::Same => "same",
        }
    }
}
