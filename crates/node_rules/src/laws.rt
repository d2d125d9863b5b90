//! Laws of rules on nodes.

ghost use Rattle.node_rules.specs.Laws.{FindTogether};

/// Rules in one walk find what each of them finds alone, in another order.
pub fn together_is_alone()
    ensures { FindTogether }
{}
