//! One rule after the other over a script.

ghost use Rattle.std.specs.Prelude.{◌≡◌, ◌++◌, OnOk};
ghost use Rattle.tree.specs.Flat.{post_order};
ghost use Rattle.rule_words.specs.Appends.{Grows};
ghost use Rattle.text_rules.specs.Found.{each, found_by_rule, found_by_rules, of_node};

use crate::gap::Look;
use crate::parts::push_of_node;
use crate::spaces::push_outside;
use crate::text_rule::{TextRule, reads_all};
use rule_words::Report;
use std::alloc::{AllocError, Global};
use tree::Program;

/// Appends what rules report of a script, whose text is `source`.
///
/// # Errors
///
/// `AllocError` where memory is refused: then what stood in `out` still stands in front, perhaps with some reports behind it.
pub fn push_found(
    alloc: Global,
    source: &str,
    rules: &[TextRule],
    program: &Program,
    out: &mut Vec<Report>,
) -> Result<(), AllocError>
    ensures found { OnOk result (out.new.items ≡ out.old.items ++ found_by_rules source.now rules.now program.now) }
    ensures kept { Grows out.old.items out.new.items }
{
    for rule in rules {
        let look = Look {
            rule: *rule,
            source,
            alloc,
        };
        push_by_rule(look, program, out)?;
    }
    Ok(())
}

/// Appends what one rule reports.
fn push_by_rule(look: Look, program: &Program, out: &mut Vec<Report>) -> Result<(), AllocError>
    ensures found { OnOk result (out.new.items ≡ out.old.items ++ found_by_rule look.entry.source.now look.entry.rule program.now) }
    ensures kept { Grows out.old.items out.new.items }
{
    if reads_all(look.rule) {
        push_outside(look, program, out)
    } else {
        push_of_nodes(look, program, out)
    }
}

/// Appends what one rule reports of all nodes.
fn push_of_nodes(look: Look, program: &Program, out: &mut Vec<Report>) -> Result<(), AllocError>
    ensures found { OnOk result (out.new.items ≡ out.old.items ++ each (of_node look.entry.source.now look.entry.rule) (post_order program.now)) }
    ensures kept { Grows out.old.items out.new.items }
{
    for number in 0..program.node_count() {
        push_of_node(look, program.node(number), out)?;
    }
    Ok(())
}
