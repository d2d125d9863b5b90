//! Which rules on nodes there are, row by row: a variant, a name, the kinds that it looks at, the test, the place, the words. A rule has
//! an arm in each table here, and in those of `specs/Rows.antt`.

ghost use Rattle.std.specs.Prelude.{◌≡◌, codes, cond, not, option_map};
ghost use Rattle.tree.specs.Node.{node_tree};
ghost use Rattle.language.specs.Vocabulary.{is};
ghost use Rattle.node_rules.specs.Rows.{empty_words, holds, key_place, looks, nan_words, place, says, useless_catch};
ghost use Rattle.node_rules.specs.Searches.{has_sought};
ghost use Rattle.node_rules.specs.Words.{nth, text_at};
ghost use Rattle.node_rules.specs.declared.node_rule.NodeRule.TheVariants.{ValidTypeof};
ghost use Rattle.node_rules.specs.declared.search.Sought.TheVariants.{Jump};

use crate::around::Around;
use crate::class_tests::is_useless_constructor;
use crate::expression_tests::adds_texts;
use crate::expression_tests::calls_has_own;
use crate::expression_tests::coercion_words;
use crate::expression_tests::is_bare_body;
use crate::expression_tests::is_caller;
use crate::expression_tests::is_coercion;
use crate::expression_tests::is_lonely_if;
use crate::expression_tests::is_long_property;
use crate::expression_tests::is_negated_side;
use crate::expression_tests::is_parse_int;
use crate::expression_tests::is_power;
use crate::expression_tests::is_used;
use crate::expression_tests::is_wrapper;
use crate::expression_tests::keeps_name;
use crate::expression_tests::lacks_radix;
use crate::expression_tests::may_rename;
use crate::expression_tests::start_of_sum;
use crate::kind_sets::compares;
use crate::kind_sets::declares;
use crate::kind_sets::destructures;
use crate::kind_sets::gets_value;
use crate::kind_sets::has_body;
use crate::kind_sets::has_statement_list;
use crate::kind_sets::is_array;
use crate::kind_sets::is_assignment;
use crate::kind_sets::is_await;
use crate::kind_sets::is_binary;
use crate::kind_sets::is_binary_operation;
use crate::kind_sets::is_call;
use crate::kind_sets::is_case;
use crate::kind_sets::is_conditional;
use crate::kind_sets::is_continue;
use crate::kind_sets::is_debugger;
use crate::kind_sets::is_declarator;
use crate::kind_sets::is_empty_statement;
use crate::kind_sets::is_expression_statement;
use crate::kind_sets::is_for;
use crate::kind_sets::is_function_declaration;
use crate::kind_sets::is_if;
use crate::kind_sets::is_labelled;
use crate::kind_sets::is_literal_kind;
use crate::kind_sets::is_member_expression;
use crate::kind_sets::is_method;
use crate::kind_sets::is_new;
use crate::kind_sets::is_object;
use crate::kind_sets::is_operation;
use crate::kind_sets::is_own_function;
use crate::kind_sets::is_plain_call;
use crate::kind_sets::is_property;
use crate::kind_sets::is_return;
use crate::kind_sets::is_short_body;
use crate::kind_sets::is_static_block;
use crate::kind_sets::is_switch;
use crate::kind_sets::is_test_of_statement;
use crate::kind_sets::is_throw;
use crate::kind_sets::is_try;
use crate::kind_sets::is_unary_kind;
use crate::kind_sets::is_update;
use crate::kind_sets::is_variable_declaration;
use crate::kind_sets::jumps;
use crate::kind_sets::makes_boolean;
use crate::kind_sets::may_have_label;
use crate::kind_sets::needs_object;
use crate::kind_sets::renames;
use crate::part_test::PartTest;
use crate::part_test::any_part;
use crate::part_test::is_default;
use crate::paths::are_same;
use crate::search::Search;
use crate::search::Sought;
use crate::search::has_sought;
use crate::tests::compares_nan;
use crate::tests::first_of;
use crate::tests::is_builtin_test;
use crate::tests::is_cast;
use crate::tests::is_empty;
use crate::tests::is_empty_node;
use crate::tests::is_lexical;
use crate::tests::is_minus_zero;
use crate::tests::is_never_typeof;
use crate::tests::is_outermost;
use crate::tests::never_yields;
use crate::tests::only_throws;
use crate::tests::runs_away;
use crate::tests::tested;
use crate::value_tests::is_constant_operation;
use crate::value_tests::is_constant_test;
use crate::value_tests::is_long_assignment;
use crate::value_tests::is_mixed_sum;
use crate::value_tests::is_self_assignment;
use crate::value_tests::is_unsafe_chain;
use crate::value_tests::leaves_finalizer;
use crate::value_tests::risked;
use crate::value_tests::throws_no_error;
use crate::values::is_boolean;
use crate::values::is_constant_key;
use crate::values::is_fixed;
use crate::values::is_name_as_key;
use crate::values::is_split_string;
use crate::words::is_async_function;
use crate::words::is_comparison;
use crate::words::is_equality;
use crate::words::is_identifier;
use crate::words::is_key_part;
use crate::words::is_name;
use crate::words::is_string;
use crate::words::kind_at;
use crate::words::span_at;
use crate::words::span_of;
use crate::words::text_at;
use crate::words::unchained;
use tree::Kind;
use tree::Node;
use tree::Span;

/// A rule that looks at single nodes.
#[derive(Clone, Copy, Debug, PartialEq, Eq)]
pub enum NodeRule {
    Curly,
    DefaultCaseLast,
    DotNotation,
    EqEqEq,
    ForDirection,
    NoArrayConstructor,
    NoAsyncPromiseExecutor,
    NoCaller,
    NoCaseDeclarations,
    NoCompareNegZero,
    NoConstantBinaryExpression,
    NoConstantCondition,
    NoContinue,
    NoDebugger,
    NoEmpty,
    NoEmptyPattern,
    NoEmptyStaticBlock,
    NoEval,
    NoExtraBooleanCast,
    NoExtraSemi,
    NoImplicitCoercion,
    NoInnerDeclarations,
    NoLabels,
    NoLonelyIf,
    NoMultiAssign,
    NoMultiStr,
    NoNestedTernary,
    NoNew,
    NoNewFunc,
    NoNewObject,
    NoNewWrappers,
    NoPlusplus,
    NoProto,
    NoPrototypeBuiltins,
    NoReturnAwait,
    NoSelfAssign,
    NoSelfCompare,
    NoSetterReturn,
    NoSparseArrays,
    NoTernary,
    NoThrowLiteral,
    NoUndefInit,
    NoUnneededTernary,
    NoUnsafeFinally,
    NoUnsafeNegation,
    NoUnsafeOptionalChaining,
    NoUnusedExpressions,
    NoUnusedLabels,
    NoUselessCatch,
    NoUselessComputedKey,
    NoUselessConcat,
    NoUselessConstructor,
    NoUselessRename,
    NoVar,
    NoVoid,
    ObjectShorthand,
    OperatorAssignment,
    PreferExponentiationOperator,
    PreferObjectHasOwn,
    PreferTemplate,
    Radix,
    RequireYield,
    SymbolDescription,
    UseIsNan,
    ValidTypeof,
    Yoda,
}

/// The rules, in the order of their names.
pub const NODE_RULES: [NodeRule; 66] = [
    NodeRule::Curly,
    NodeRule::DefaultCaseLast,
    NodeRule::DotNotation,
    NodeRule::EqEqEq,
    NodeRule::ForDirection,
    NodeRule::NoArrayConstructor,
    NodeRule::NoAsyncPromiseExecutor,
    NodeRule::NoCaller,
    NodeRule::NoCaseDeclarations,
    NodeRule::NoCompareNegZero,
    NodeRule::NoConstantBinaryExpression,
    NodeRule::NoConstantCondition,
    NodeRule::NoContinue,
    NodeRule::NoDebugger,
    NodeRule::NoEmpty,
    NodeRule::NoEmptyPattern,
    NodeRule::NoEmptyStaticBlock,
    NodeRule::NoEval,
    NodeRule::NoExtraBooleanCast,
    NodeRule::NoExtraSemi,
    NodeRule::NoImplicitCoercion,
    NodeRule::NoInnerDeclarations,
    NodeRule::NoLabels,
    NodeRule::NoLonelyIf,
    NodeRule::NoMultiAssign,
    NodeRule::NoMultiStr,
    NodeRule::NoNestedTernary,
    NodeRule::NoNew,
    NodeRule::NoNewFunc,
    NodeRule::NoNewObject,
    NodeRule::NoNewWrappers,
    NodeRule::NoPlusplus,
    NodeRule::NoProto,
    NodeRule::NoPrototypeBuiltins,
    NodeRule::NoReturnAwait,
    NodeRule::NoSelfAssign,
    NodeRule::NoSelfCompare,
    NodeRule::NoSetterReturn,
    NodeRule::NoSparseArrays,
    NodeRule::NoTernary,
    NodeRule::NoThrowLiteral,
    NodeRule::NoUndefInit,
    NodeRule::NoUnneededTernary,
    NodeRule::NoUnsafeFinally,
    NodeRule::NoUnsafeNegation,
    NodeRule::NoUnsafeOptionalChaining,
    NodeRule::NoUnusedExpressions,
    NodeRule::NoUnusedLabels,
    NodeRule::NoUselessCatch,
    NodeRule::NoUselessComputedKey,
    NodeRule::NoUselessConcat,
    NodeRule::NoUselessConstructor,
    NodeRule::NoUselessRename,
    NodeRule::NoVar,
    NodeRule::NoVoid,
    NodeRule::ObjectShorthand,
    NodeRule::OperatorAssignment,
    NodeRule::PreferExponentiationOperator,
    NodeRule::PreferObjectHasOwn,
    NodeRule::PreferTemplate,
    NodeRule::Radix,
    NodeRule::RequireYield,
    NodeRule::SymbolDescription,
    NodeRule::UseIsNan,
    NodeRule::ValidTypeof,
    NodeRule::Yoda,
];

/// What rules on nodes ask of the settings.
#[derive(Clone, Copy, Debug, PartialEq, Eq)]
pub struct NodeOptions {
    /// Whether `eqeqeq` leaves comparisons with `null` alone.
    pub allow_null: bool,
    /// Whether `no-empty` leaves blocks alone that have a comment in them.
    pub allow_comments: bool,
}

impl NodeRule {
    ghost use Rattle.std.specs.Prelude.{◌≡◌};
    ghost use Rattle.node_rules.specs.Rows.{called};

    /// What settings and reports call it.
    pub fn name(self) -> &'static str
        ensures { result.now ≡ called self }
    {
        match self {
            NodeRule::Curly => "curly",
            NodeRule::DefaultCaseLast => "default-case-last",
            NodeRule::DotNotation => "dot-notation",
            NodeRule::EqEqEq => "eqeqeq",
            NodeRule::ForDirection => "for-direction",
            NodeRule::NoArrayConstructor => "no-array-constructor",
            NodeRule::NoAsyncPromiseExecutor => "no-async-promise-executor",
            NodeRule::NoCaller => "no-caller",
            NodeRule::NoCaseDeclarations => "no-case-declarations",
            NodeRule::NoCompareNegZero => "no-compare-neg-zero",
            NodeRule::NoConstantBinaryExpression => "no-constant-binary-expression",
            NodeRule::NoConstantCondition => "no-constant-condition",
            NodeRule::NoContinue => "no-continue",
            NodeRule::NoDebugger => "no-debugger",
            NodeRule::NoEmpty => "no-empty",
            NodeRule::NoEmptyPattern => "no-empty-pattern",
            NodeRule::NoEmptyStaticBlock => "no-empty-static-block",
            NodeRule::NoEval => "no-eval",
            NodeRule::NoExtraBooleanCast => "no-extra-boolean-cast",
            NodeRule::NoExtraSemi => "no-extra-semi",
            NodeRule::NoImplicitCoercion => "no-implicit-coercion",
            NodeRule::NoInnerDeclarations => "no-inner-declarations",
            NodeRule::NoLabels => "no-labels",
            NodeRule::NoLonelyIf => "no-lonely-if",
            NodeRule::NoMultiAssign => "no-multi-assign",
            NodeRule::NoMultiStr => "no-multi-str",
            NodeRule::NoNestedTernary => "no-nested-ternary",
            NodeRule::NoNew => "no-new",
            NodeRule::NoNewFunc => "no-new-func",
            NodeRule::NoNewObject => "no-new-object",
            NodeRule::NoNewWrappers => "no-new-wrappers",
            NodeRule::NoPlusplus => "no-plusplus",
            NodeRule::NoProto => "no-proto",
            NodeRule::NoPrototypeBuiltins => "no-prototype-builtins",
            NodeRule::NoReturnAwait => "no-return-await",
            NodeRule::NoSelfAssign => "no-self-assign",
            NodeRule::NoSelfCompare => "no-self-compare",
            NodeRule::NoSetterReturn => "no-setter-return",
            NodeRule::NoSparseArrays => "no-sparse-arrays",
            NodeRule::NoTernary => "no-ternary",
            NodeRule::NoThrowLiteral => "no-throw-literal",
            NodeRule::NoUndefInit => "no-undef-init",
            NodeRule::NoUnneededTernary => "no-unneeded-ternary",
            NodeRule::NoUnsafeFinally => "no-unsafe-finally",
            NodeRule::NoUnsafeNegation => "no-unsafe-negation",
            NodeRule::NoUnsafeOptionalChaining => "no-unsafe-optional-chaining",
            NodeRule::NoUnusedExpressions => "no-unused-expressions",
            NodeRule::NoUnusedLabels => "no-unused-labels",
            NodeRule::NoUselessCatch => "no-useless-catch",
            NodeRule::NoUselessComputedKey => "no-useless-computed-key",
            NodeRule::NoUselessConcat => "no-useless-concat",
            NodeRule::NoUselessConstructor => "no-useless-constructor",
            NodeRule::NoUselessRename => "no-useless-rename",
            NodeRule::NoVar => "no-var",
            NodeRule::NoVoid => "no-void",
            NodeRule::ObjectShorthand => "object-shorthand",
            NodeRule::OperatorAssignment => "operator-assignment",
            NodeRule::PreferExponentiationOperator => "prefer-exponentiation-operator",
            NodeRule::PreferObjectHasOwn => "prefer-object-has-own",
            NodeRule::PreferTemplate => "prefer-template",
            NodeRule::Radix => "radix",
            NodeRule::RequireYield => "require-yield",
            NodeRule::SymbolDescription => "symbol-description",
            NodeRule::UseIsNan => "use-isnan",
            NodeRule::ValidTypeof => "valid-typeof",
            NodeRule::Yoda => "yoda",
        }
    }
}

/// Whether a rule looks at nodes of a kind.
pub(crate) fn looks(rule: NodeRule, kind: Kind) -> bool
    ensures { result ≡ looks rule kind }
{
    match rule {
        NodeRule::Curly => is_short_body(kind),
        NodeRule::DefaultCaseLast => is_switch(kind),
        NodeRule::DotNotation => is_member_expression(kind),
        NodeRule::EqEqEq => is_binary(kind),
        NodeRule::ForDirection => is_for(kind),
        NodeRule::NoArrayConstructor => is_call(kind),
        NodeRule::NoAsyncPromiseExecutor => is_new(kind),
        NodeRule::NoCaller => is_member_expression(kind),
        NodeRule::NoCaseDeclarations => declares(kind),
        NodeRule::NoCompareNegZero => is_binary(kind),
        NodeRule::NoConstantBinaryExpression => is_binary_operation(kind),
        NodeRule::NoConstantCondition => is_test_of_statement(kind),
        NodeRule::NoContinue => is_continue(kind),
        NodeRule::NoDebugger => is_debugger(kind),
        NodeRule::NoEmpty => has_statement_list(kind),
        NodeRule::NoEmptyPattern => destructures(kind),
        NodeRule::NoEmptyStaticBlock => is_static_block(kind),
        NodeRule::NoEval => is_plain_call(kind),
        NodeRule::NoExtraBooleanCast => makes_boolean(kind),
        NodeRule::NoExtraSemi => is_empty_statement(kind),
        NodeRule::NoImplicitCoercion => is_operation(kind),
        NodeRule::NoInnerDeclarations => is_function_declaration(kind),
        NodeRule::NoLabels => may_have_label(kind),
        NodeRule::NoLonelyIf => is_if(kind),
        NodeRule::NoMultiAssign => is_assignment(kind),
        NodeRule::NoMultiStr => is_literal_kind(kind),
        NodeRule::NoNestedTernary => is_conditional(kind),
        NodeRule::NoNew => is_expression_statement(kind),
        NodeRule::NoNewFunc => is_call(kind),
        NodeRule::NoNewObject => is_new(kind),
        NodeRule::NoNewWrappers => is_new(kind),
        NodeRule::NoPlusplus => is_update(kind),
        NodeRule::NoProto => is_member_expression(kind),
        NodeRule::NoPrototypeBuiltins => is_plain_call(kind),
        NodeRule::NoReturnAwait => is_await(kind),
        NodeRule::NoSelfAssign => is_assignment(kind),
        NodeRule::NoSelfCompare => is_binary(kind),
        NodeRule::NoSetterReturn => is_return(kind),
        NodeRule::NoSparseArrays => is_array(kind),
        NodeRule::NoTernary => is_conditional(kind),
        NodeRule::NoThrowLiteral => is_throw(kind),
        NodeRule::NoUndefInit => is_declarator(kind),
        NodeRule::NoUnneededTernary => is_conditional(kind),
        NodeRule::NoUnsafeFinally => jumps(kind),
        NodeRule::NoUnsafeNegation => is_binary(kind),
        NodeRule::NoUnsafeOptionalChaining => needs_object(kind),
        NodeRule::NoUnusedExpressions => is_expression_statement(kind),
        NodeRule::NoUnusedLabels => is_labelled(kind),
        NodeRule::NoUselessCatch => is_try(kind),
        NodeRule::NoUselessComputedKey => is_property(kind),
        NodeRule::NoUselessConcat => is_binary(kind),
        NodeRule::NoUselessConstructor => is_method(kind),
        NodeRule::NoUselessRename => renames(kind),
        NodeRule::NoVar => is_variable_declaration(kind),
        NodeRule::NoVoid => is_unary_kind(kind),
        NodeRule::ObjectShorthand => is_property(kind),
        NodeRule::OperatorAssignment => is_assignment(kind),
        NodeRule::PreferExponentiationOperator => is_plain_call(kind),
        NodeRule::PreferObjectHasOwn => is_plain_call(kind),
        NodeRule::PreferTemplate => is_binary(kind),
        NodeRule::Radix => is_plain_call(kind),
        NodeRule::RequireYield => is_own_function(kind),
        NodeRule::SymbolDescription => is_plain_call(kind),
        NodeRule::UseIsNan => compares(kind),
        NodeRule::ValidTypeof => is_binary(kind),
        NodeRule::Yoda => is_binary(kind),
    }
}

/// Whether a rule reports a node at which it looks.
pub(crate) fn holds(
    options: NodeOptions,
    source: &str,
    rule: NodeRule,
    around: Around,
    node: Node,
) -> bool
    ensures { result ≡ holds options source.now rule around (node_tree node.entry) }
{
    match rule {
        NodeRule::Curly => is_bare_body(around, node),
        NodeRule::DefaultCaseLast => any_part(PartTest::IsDefault, node)
            && !is_default(node.parts().last()),
        NodeRule::DotNotation => node.flags().computed && is_name_as_key(node.part(1)),
        NodeRule::EqEqEq => (node.text() == "==" || node.text() == "!=")
            && !(options.allow_null && any_part(PartTest::IsNull, node)),
        NodeRule::ForDirection => runs_away(node.part(1), node.part(2)),
        NodeRule::NoArrayConstructor => is_name(node.part(0), "Array")
            && (node.part(1).is_none() || node.part(2).is_some()),
        NodeRule::NoAsyncPromiseExecutor => is_name(node.part(0), "Promise")
            && is_async_function(node.part(1)),
        NodeRule::NoCaller => is_caller(node),
        NodeRule::NoCaseDeclarations => is_case(around.parent) && is_lexical(node),
        NodeRule::NoCompareNegZero => is_comparison(node.text())
            && (is_minus_zero(node.part(0)) || is_minus_zero(node.part(1))),
        NodeRule::NoConstantBinaryExpression => is_constant_operation(node),
        NodeRule::NoConstantCondition => is_constant_test(node),
        NodeRule::NoContinue => true,
        NodeRule::NoDebugger => true,
        NodeRule::NoEmpty => is_empty_node(options, source, around, node),
        NodeRule::NoEmptyPattern => is_empty(node),
        NodeRule::NoEmptyStaticBlock => is_empty(node),
        NodeRule::NoEval => is_name(node.part(0), "eval"),
        NodeRule::NoExtraBooleanCast => is_cast(node),
        NodeRule::NoExtraSemi => !has_body(around.parent),
        NodeRule::NoImplicitCoercion => is_coercion(node),
        NodeRule::NoInnerDeclarations => !is_outermost(around.parent, around.grandparent),
        NodeRule::NoLabels => node.part(0).is_some(),
        NodeRule::NoLonelyIf => is_lonely_if(node),
        NodeRule::NoMultiAssign => gets_value(around.parent) && around.place == 1,
        NodeRule::NoMultiStr => is_split_string(node.text()),
        NodeRule::NoNestedTernary => is_conditional(kind_at(node.part(1)))
            || is_conditional(kind_at(node.part(2))),
        NodeRule::NoNew => is_new(kind_at(node.part(0))),
        NodeRule::NoNewFunc => is_name(node.part(0), "Function"),
        NodeRule::NoNewObject => is_name(node.part(0), "Object"),
        NodeRule::NoNewWrappers => is_wrapper(node.part(0)),
        NodeRule::NoPlusplus => true,
        NodeRule::NoProto => is_key_part(node.part(1), node.flags().computed, "__proto__"),
        NodeRule::NoPrototypeBuiltins => is_builtin_test(unchained(node.part(0))),
        NodeRule::NoReturnAwait => around.is_returned(),
        NodeRule::NoSelfAssign => is_self_assignment(node),
        NodeRule::NoSelfCompare => is_comparison(node.text())
            && are_same(node.part(0), node.part(1)),
        NodeRule::NoSetterReturn => around.in_setter && node.part(0).is_some(),
        NodeRule::NoSparseArrays => any_part(PartTest::IsGap, node),
        NodeRule::NoTernary => true,
        NodeRule::NoThrowLiteral => throws_no_error(node),
        NodeRule::NoUndefInit => !around.remark.is_const()
            && is_identifier(node.part(0))
            && is_name(node.part(1), "undefined"),
        NodeRule::NoUnneededTernary => is_boolean(node.part(1)) && is_boolean(node.part(2)),
        NodeRule::NoUnsafeFinally => leaves_finalizer(around, node),
        NodeRule::NoUnsafeNegation => is_negated_side(node),
        NodeRule::NoUnsafeOptionalChaining => is_unsafe_chain(around, node),
        NodeRule::NoUnusedExpressions => !node.flags().directive
            && !is_used(unchained(node.part(0))),
        NodeRule::NoUnusedLabels => is_unused_label(node),
        NodeRule::NoUselessCatch => only_throws(node.part(1)),
        NodeRule::NoUselessComputedKey => node.flags().computed
            && is_constant_key(node.part(0))
            && !is_string(node.part(0), "__proto__"),
        NodeRule::NoUselessConcat => adds_texts(source, node),
        NodeRule::NoUselessConstructor => is_useless_constructor(around, node),
        NodeRule::NoUselessRename => may_rename(around.parent, node.kind()) && keeps_name(node),
        NodeRule::NoVar => node.text() == "var",
        NodeRule::NoVoid => node.text() == "void",
        NodeRule::ObjectShorthand => is_object(around.parent) && is_long_property(node),
        NodeRule::OperatorAssignment => is_long_assignment(node),
        NodeRule::PreferExponentiationOperator => is_power(unchained(node.part(0))),
        NodeRule::PreferObjectHasOwn => calls_has_own(unchained(node.part(0))),
        NodeRule::PreferTemplate => is_mixed_sum(around, node),
        NodeRule::Radix => is_parse_int(unchained(node.part(0))) && lacks_radix(node),
        NodeRule::RequireYield => never_yields(node),
        NodeRule::SymbolDescription => is_name(node.part(0), "Symbol") && node.part(1).is_none(),
        NodeRule::UseIsNan => compares_nan(node),
        NodeRule::ValidTypeof => is_equality(node.text())
            && (is_never_typeof(node.part(0), node.part(1))
                || is_never_typeof(node.part(1), node.part(0))),
        NodeRule::Yoda => is_comparison(node.text())
            && is_fixed(node.part(0))
            && !is_fixed(node.part(1)),
    }
}

/// Whether no `break` or `continue` in a labelled statement has its label.
fn is_unused_label(node: Node) -> bool
    ensures { result ≡ not (has_sought Jump (text_at (nth 0 (node_tree node.entry))) (nth 1 (node_tree node.entry))) }
{
    let search = Search {
        sought: Sought::Jump,
        label: text_at(node.part(0)),
    };
    !has_sought(search, node.part(1))
}

/// Where a report of a rule stands.
pub(crate) fn place(rule: NodeRule, node: Node) -> Span
    ensures { result ≡ place rule (node_tree node.entry) }
{
    match rule {
        NodeRule::DotNotation => span_at(node, node.part(1)),
        NodeRule::NoAsyncPromiseExecutor => span_at(node, node.part(1)),
        NodeRule::NoConstantCondition => span_at(node, tested(node)),
        NodeRule::NoEval => span_at(node, node.part(0)),
        NodeRule::NoExtraBooleanCast => span_at(node, tested(node)),
        NodeRule::NoLonelyIf => span_at(node, first_of(node.part(2))),
        NodeRule::NoPrototypeBuiltins => key_place(node, unchained(node.part(0))),
        NodeRule::NoSelfAssign => span_at(node, node.part(1)),
        NodeRule::NoUnsafeOptionalChaining => span_at(node, risked(node)),
        NodeRule::NoUnusedLabels => span_at(node, node.part(0)),
        NodeRule::NoUselessCatch => useless_catch(node),
        NodeRule::NoUselessConcat => span_at(node, start_of_sum(node.part(1))),
        NodeRule::ValidTypeof => typeof_value_place(node),
        _ => span_of(node),
    }
}

/// Where a member's key stands.
fn key_place(node: Node, member: Option<Node>) -> Span
    ensures { result ≡ key_place (node_tree node.entry) (option_map node_tree member.entry) }
{
    match member {
        Some(member) => span_at(node, member.part(1)),
        None => span_of(node),
    }
}

/// Where the `catch` of a `try` stands, or the whole statement where nothing follows it.
fn useless_catch(node: Node) -> Span
    ensures { result ≡ useless_catch (node_tree node.entry) }
{
    if node.part(2).is_some() {
        span_at(node, node.part(1))
    } else {
        span_of(node)
    }
}

/// Where the literal beside a `typeof` stands.
fn typeof_value_place(node: Node) -> Span
    ensures { result ≡ place ValidTypeof (node_tree node.entry) }
{
    if is_never_typeof(node.part(0), node.part(1)) {
        span_at(node, node.part(1))
    } else {
        span_at(node, node.part(0))
    }
}

/// What a rule says of a node that it reports.
pub(crate) fn words(rule: NodeRule, node: Node) -> &'static str
    ensures { result.now ≡ says rule (node_tree node.entry) }
{
    match rule {
        NodeRule::Curly => "expected a block",
        NodeRule::DefaultCaseLast => "default before another case",
        NodeRule::DotNotation => "use a dot",
        NodeRule::EqEqEq => equality_words(node.text()),
        NodeRule::ForDirection => "the counter goes away from its bound",
        NodeRule::NoArrayConstructor => "use an array literal",
        NodeRule::NoAsyncPromiseExecutor => "async executor",
        NodeRule::NoCaller => "throws in strict code",
        NodeRule::NoCaseDeclarations => "declaration in a case",
        NodeRule::NoCompareNegZero => "no comparison tells -0 from 0",
        NodeRule::NoConstantBinaryExpression => "constant operation",
        NodeRule::NoConstantCondition => "constant condition",
        NodeRule::NoContinue => "continue",
        NodeRule::NoDebugger => "debugger statement",
        NodeRule::NoEmpty => empty_words(node.kind()),
        NodeRule::NoEmptyPattern => "empty pattern",
        NodeRule::NoEmptyStaticBlock => "empty static block",
        NodeRule::NoEval => "code from text",
        NodeRule::NoExtraBooleanCast => "a condition is made a boolean anyway",
        NodeRule::NoExtraSemi => "empty statement",
        NodeRule::NoImplicitCoercion => coercion_words(node),
        NodeRule::NoInnerDeclarations => "function declaration in a block",
        NodeRule::NoLabels => "label",
        NodeRule::NoLonelyIf => "'if' alone in 'else'",
        NodeRule::NoMultiAssign => "chained assignment",
        NodeRule::NoMultiStr => "string over several lines",
        NodeRule::NoNestedTernary => "conditional in a conditional",
        NodeRule::NoNew => "new object without use",
        NodeRule::NoNewFunc => "code from text",
        NodeRule::NoNewObject => "use an object literal",
        NodeRule::NoNewWrappers => "wrapper object",
        NodeRule::NoPlusplus => "use an assignment",
        NodeRule::NoProto => "use Object.getPrototypeOf",
        NodeRule::NoPrototypeBuiltins => "call it by Object.prototype",
        NodeRule::NoReturnAwait => "await of what is returned",
        NodeRule::NoSelfAssign => "assigned to itself",
        NodeRule::NoSelfCompare => "both sides are the same",
        NodeRule::NoSetterReturn => "setter returns a value",
        NodeRule::NoSparseArrays => "array with a hole",
        NodeRule::NoTernary => "conditional expression",
        NodeRule::NoThrowLiteral => "throw an Error",
        NodeRule::NoUndefInit => "undefined anyway",
        NodeRule::NoUnneededTernary => "the test says it",
        NodeRule::NoUnsafeFinally => "leaves finally",
        NodeRule::NoUnsafeNegation => "'!' belongs to the left side alone",
        NodeRule::NoUnsafeOptionalChaining => "throws where the chain is cut short",
        NodeRule::NoUnusedExpressions => "expression without use",
        NodeRule::NoUnusedLabels => "label is never used",
        NodeRule::NoUselessCatch => "catch that only throws again",
        NodeRule::NoUselessComputedKey => "brackets round a constant key",
        NodeRule::NoUselessConcat => "two texts side by side",
        NodeRule::NoUselessConstructor => "does what is done anyway",
        NodeRule::NoUselessRename => "renamed to its own name",
        NodeRule::NoVar => "use let or const instead of var",
        NodeRule::NoVoid => "void",
        NodeRule::ObjectShorthand => "use a shorthand",
        NodeRule::OperatorAssignment => "use the operator's assignment",
        NodeRule::PreferExponentiationOperator => "use '**'",
        NodeRule::PreferObjectHasOwn => "use Object.hasOwn",
        NodeRule::PreferTemplate => "use a template",
        NodeRule::Radix => "no radix from 2 to 36",
        NodeRule::RequireYield => "generator without yield",
        NodeRule::SymbolDescription => "no description",
        NodeRule::UseIsNan => nan_words(node.kind()),
        NodeRule::ValidTypeof => "typeof is never this",
        NodeRule::Yoda => "the constant stands first",
    }
}

/// Which operator to use.
fn equality_words(operator: &str) -> &'static str
    ensures { result.now ≡ cond (is operator.now "==") (codes "use '===' instead of '=='") (codes "use '!==' instead of '!='") }
{
    if operator == "==" {
        "use '===' instead of '=='"
    } else {
        "use '!==' instead of '!='"
    }
}

/// What is empty.
fn empty_words(kind: Kind) -> &'static str
    ensures { result.now ≡ empty_words kind }
{
    match kind {
        Kind::SwitchStatement => "empty switch",
        _ => "empty block",
    }
}

/// What to do about `NaN`.
fn nan_words(kind: Kind) -> &'static str
    ensures { result.now ≡ nan_words kind }
{
    match kind {
        Kind::BinaryExpression => "use Number.isNaN",
        _ => "no case equals NaN",
    }
}
