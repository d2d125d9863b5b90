#![tactic(auto)]

//! Scripts and modules from text by recursive descent: an expression is what its first token begins, and then what goes on with it.
//! - May touch: all of reading: the cursor, which only this crate moves, nodes, and the list of pairs.
//! - Contract: `read` answers what the text derives (`derived`), and all that it derives within the limits
//!   (`complete`).
//! - Begin at: `script.rt`, `read`; then `statements.rt` and `expressions.rt`. The rest of this head is for who
//!   changes it.
//!
//! # Languages
//!
//! The cursor knows the language, and sees `await` as a keyword where it is reserved. One table reads all three languages. What only ECMAScript
//! 2022 has is asked for at the token that begins it: `is_of_2022` stands behind a test that few tokens of the base profile pass. A module
//! has its own loop of items (`modules.rt`); imports and exports are in no other list, so a script refuses them.
//!
//! # The cycle
//!
//! Functions outside the cycle read single tokens, most of them by methods of `Cursor`, or the items of a module;
//! forty functions call each other. The measure is `12 * (length text - last.stop)` plus the rank. A function calls one of the same or a
//! greater rank only after it has passed a token. By rank, with their files:
//!
//! - 11: `keyword_expression` (after `function`, `class`, `super`, `new`, `import`, `yield`, a private name); in
//!   primary
//! - 10: `super_expression` (after `super`), `new_expression` (after `new`), `import_call` (after `import`),
//!   `yield_expression` (after `yield`), `private_in` (after a private name), `async_expression` (after `async`); in
//!   primary, async_and_yield, private_names
//! - 9: `function_or_class` (a function or class after its word; a method from its `(`); in functions_and_classes
//! - 8: `read_symbols` (loop); in statement_symbols
//! - 7: `list` (loop), `statements` (loop); in lists, statements
//! - 6: `item`, `statement`, `for_await` (after `for`); in lists, statements
//! - 5: `special_item` (what is no expression); in lists
//! - 4: `expression` (loop), `infix`, `declarator`; in expressions, lists
//! - 3: `leftmost_operand`, `optional_chain` (loop); in primary, subscripts
//! - 2: `subscript`, `arrow_of_name`; in subscripts, async_and_yield
//! - 1: `parenthesized`, `bracketed_list`, `one_token`, `arrow_function`, `binary_rest`, `update_or_comma`,
//!   `call_expression`, `index_member`, `other_subscript`, `spread_item`, `property_or_member`, `property_value`,
//!   `async_call`; in primary, functions_and_classes, expressions, subscripts, lists, properties, async_and_yield
//! - 0: `arguments`, `property_name`, `prefix_expression`, `field`, `static_block`; in subscripts, properties,
//!   primary, class_elements
//!
//! Some are one arm of another and have its contract for that arm: `special_item` and `spread_item` of `item`;
//! `bracketed_list`, `one_token` and `prefix_expression` of `leftmost_operand`; `super_expression`,
//! `new_expression` and `import_call` of `keyword_expression`; `call_expression`, `index_member` and
//! `other_subscript` of `subscript`; `update_or_comma` of `infix`. A function keeps the locals
//! of all its arms on the stack, and sets them to zero where it begins. So those on the way of each level of a nest
//! have few: `expression`, `leftmost_operand`, `parenthesized`, `list`, `item` for a pair. Measure before you add
//! an arm to one of these (docs/PERFORMANCE.md).
//!
//! `list`, `item`, `special_item`, `statements`, `read_symbols`, `keyword_expression`, `super_expression`,
//! `new_expression`, `import_call` and `function_or_class` may pass nothing (their clauses have no `passes`). A
//! list's loop ends since `item` or what separates items passes a token, or it is a hole before a comma.
//!
//! # The clauses
//!
//! - `derived`: `Adds s e old new Is`: as many parentheses are open as before, what was added to the pairs is a
//!   list, and `Is o s e P` holds for o = `max_open` - opened and the pairs of that list that group (`grouping`,
//!   which `retain` in `read` gives in the end). A function that goes on with something already read promises for
//!   whatever came before. A part is promised for each of its roles at once, by its shape (`PartAt`): an
//!   expression, a pattern (`pattern_tree`, a fold on the expression's tree).
//! - `complete` (`Agrees`): of a given derivation of what is ahead, that can't go on. At Ok the tree, the place and
//!   the pairs are the given ones; a syntax error is absurd; too deep only if the given derivation isn't within the
//!   limits (`Room`). The loop of `expression` goes by stages: what was read so far is a part of what is given, up
//!   to some turn.
//! - `low` (the height of what is answered) and the skeleton (`text`, `forward`, `passes`, `refused`) are clauses
//!   of their own.
//! - `waits`: what is answered, a node or parts, waits last in `tree`, behind what waited before; and so does what is
//!   handed in to go on with. `same_tree`: no node is made. So each node becomes a part of the next, in the order of
//!   the text, or is answered, and none is left behind. A callee that is called `async` is made when its arguments
//!   wait already (`leaf_before`). The steps of a proof are in `proofs/reading/WaitingNodes.antt`.
//!
//! Four things look right and are false. That an expression at a position is the only thing there: `a` and `a.b`
//! both begin at one place, so say that it can't go on. That a parenthesis counts where it closes: it counts while
//! it is open, whatever it turns out to be. That an operand is read by Div wherever RegExp reads one
//! (`operand_start`). That In matters at `**`: it doesn't (`PowersIn`).
//!
//! # Checking
//!
//! - One function of the cycle alone: `tools/measure/stub.py CRATE COPY FUNCTION` writes a copy of the crate in
//!   which each other function of the cycle only refuses, so that its contract is taken as it is. Then, in COPY,
//!   `rt check --only parser::Parser::FUNCTION --allow-holes`: 10 to 60 s over the kept work of the crates below.
//!   The whole cycle takes six minutes on four processors over kept work, a third of them the cycle itself in one
//!   job.
//! - In the cycle answers take the measure before `c` (`F-goal t c = ..`), names of branches have their function in
//!   front (`F-then-x`), and what a call within the cycle requires is one goal, the measure first:
//!   `infix-binary_rest-requires t c = (search rules, (.., ..))`. The tool turns them into the stub's form.
//! - An `omega` in an answer of the cycle sees more hypotheses than in a stub, and may break off: put the fact into
//!   a lemma.
//! - A lemma that ends in `.. (Err fault)`, or whose premise `Agrees ..` computes away, leaves implicit arguments
//!   undetermined: make them explicit.
//! - The comparison with the plain model: `tools/compare/parser.js` (`--n`, `--seed`, `--high`, `--open`,
//!   `--nested`). The stack of `rt try` is too small for the rows at height 600: run them by `rt test`.

mod async_and_yield;
mod class_elements;
mod expressions;
mod functions_and_classes;
mod imports;
mod lists;
mod modules;
mod next_operator;
mod parser;
mod primary;
mod private_names;
mod properties;
mod script;
mod statement_symbols;
mod statements;
mod subscripts;
mod template_elements;
mod token_tests;

pub use script::{Script, read};
