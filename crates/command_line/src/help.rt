//! What help and the version say.

/// The version, and the toolchain that proves it (`rt version`).
pub const VERSION: &str = "2.9.0 (proved with rattle-kit-13)";

/// What the help says of the program.
pub const ABOUT: &str =
    "A linter for strict ECMAScript scripts, with proofs of what its answers mean";

/// What the help says of `check`.
pub const CHECK: &str = "Report what the rules find, a line each: LINE:COLUMN RULE TEXT";

/// What the help says of `tree`.
pub const TREE: &str = "Write the tree of the script as JSON, in the form of ESTree";

/// What the help says of `fix`.
pub const FIX: &str = "Write the script in one layout: the fewest parentheses, no comments";

/// What stands below the help of `fix`.
pub const FIX_NOTE: &str = "Comments are dropped. `jslint unwrap FILE` keeps them.";

/// What the help says of `unwrap`.
pub const UNWRAP: &str = "Write the script as it stands, but without its unnecessary parentheses";

/// What stands below the help of `unwrap`.
pub const UNWRAP_NOTE: &str =
    "Comments stay, and so do blanks and lines where no parenthesis goes.";

/// What the help says of `mend`.
pub const MEND: &str = "Write the script with the safe changes for what the rules find";

/// What stands below the help of `mend`.
pub const MEND_NOTE: &str = "\
What `check` reports under the same settings is changed where a rule has a safe
change; all else stays, comments and layout too.";

/// What the help says of `format`.
pub const FORMAT: &str = "Write the script in lines of a width, with its comments";

/// What stands below the help of `format`.
pub const FORMAT_NOTE: &str = "\
The tree stays, and without --fewest each pair of parentheses. With --check nothing
is written: status 0 if the script is formatted as it stands, 1 if not.";

/// What the help says of `cost`.
pub const COST: &str = "Write the cost table: how many parentheses each part needs";

/// What the help says of `verify`.
pub const VERIFY: &str = "Check a cost table: how many pairs the script has, and needs at least";

/// What the help says of `same`.
pub const SAME: &str = "Compare two scripts: status 0 if they have one tree, 1 if not";

/// What the help says of the script's file.
pub const FILE: &str = "The script";

/// What the help says of `--edition`.
pub const EDITION: &str = "2020, the base profile, or 2022: strict scripts of ECMAScript 2022";

/// What the help says of `--module`.
pub const MODULE: &str = "Modules of ECMAScript 2022";

/// What the help says of `--any`.
pub const ANY: &str = "The first that takes the script: base profile, 2022, modules";

/// What the help says of `--settings`.
pub const SETTINGS: &str = "Rules and options, as TOML; without it nine rules are on";

/// What the help says of `--spans`.
pub const SPANS: &str = "Lines START END RULE TEXT: where a report is, in bytes from 0";

/// What the help says of `--list`.
pub const LIST: &str =
    "FILE has names, each ended by a zero byte: lines NAME:LINE:COLUMN RULE TEXT";

/// What the help says of `--width`.
pub const WIDTH: &str = "Columns of a line, 40 to 200; 80 without it";

/// What the help says of `--indent`.
pub const INDENT: &str = "Columns of a level of indentation, 1 to 8; 2 without it";

/// What the help says of `--tabs`.
pub const TABS: &str = "A tab for each level, which counts as the columns of one";

/// What the help says of `--commas`.
pub const COMMAS: &str =
    "Where a list over several lines ends with a comma: none, lists, or all, as without it";

/// What the help says of `--bare-arrows`.
pub const BARE_ARROWS: &str = "No parentheses round the one plain parameter of an arrow";

/// What the help says of `--fewest`.
pub const FEWEST: &str = "With the fewest parentheses, as `unwrap`";

/// What the help says of `--check`.
pub const CHECKED: &str = "Write nothing: status 1 if the script isn't its own formatted text";

/// What the help says of the cost table's file.
pub const TABLE: &str = "A cost table, as `cost` writes it";

/// What the help says of the other script's file.
pub const OTHER: &str = "The script that FILE is compared with";

/// What stands below the commands.
pub const AFTER: &str = "\
Examples:
  jslint check app.js
  jslint check app.js --settings jslint.toml
  jslint check app.js --spans
  git ls-files -z '*.js' | jslint check --list -
  jslint tree app.js
  jslint fix app.js > fixed.js
  jslint unwrap app.js > clean.js
  jslint mend app.js --settings jslint.toml > mended.js
  jslint format app.js > pretty.js
  jslint format app.js --check --width 100
  jslint cost app.js > app.cost
  jslint verify app.js app.cost
  jslint same app.js clean.js
  jslint check app.mjs --module
  jslint check app.js --any
  jslint check -- -h.js
  git show HEAD:app.js | jslint check -

`fix` drops comments, `unwrap`, `mend` and `format` keep them.

A name that may begin with `-` goes after `--`, or it is read as an option:
`jslint check -- FILE`, `jslint check --settings=FILE -- FILE`.

Limits: 16,777,216 bytes of a script in UTF-8, of settings, and of a list; a tree
of height 600; 1,200 parentheses open at one point that group or hold an arrow's
parameters. `-` is standard input, as FILE or in the place of a second file;
`./-` is a file of that name.

Exit status:
  0  done; `check` had no report, and `same` found one tree
  1  `check` had a report, `verify` found the table wrong, `same` two trees, or
     `format --check` a script that isn't formatted
  2  refused: standard error says why";
