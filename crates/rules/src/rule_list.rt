//! Which rules there are, by their names.

use flow_rules::FlowRule;
use literal_rules::LiteralRule;
use node_rules::NodeRule;
use reference_rules::ReferenceRule;
use repetition_rules::RepetitionRule;
use text_rules::TextRule;
use value_rules::ValueRule;

/// The name of a rule that ships with the program.
#[derive(Clone, Copy, Debug, PartialEq, Eq)]
pub enum RuleName {
    /// A rule that looks at single nodes: a row of `node_rules`.
    OnNodes(NodeRule),
    /// A rule that asks what names mean: a row of `reference_rules`.
    OnReferences(ReferenceRule),
    /// A rule on what stands twice: a row of `repetition_rules`.
    OnRepetitions(RepetitionRule),
    /// A rule on the ways that statements end: a row of `flow_rules`.
    OnFlow(FlowRule),
    /// A rule on the texts of literals: a row of `literal_rules`.
    OnLiterals(LiteralRule),
    /// A rule on what stands between tokens: a row of `text_rules`.
    OnTexts(TextRule),
    /// A rule on the values of literals: a row of `value_rules`.
    OnValues(ValueRule),
    /// `no-extend-native`.
    NoExtendNative,
    /// `no-extra-parens`.
    NoExtraParens,
    /// `no-shadow`.
    NoShadow,
    /// `no-undef`.
    NoUndef,
    /// `no-unused-private-class-members`.
    NoUnusedPrivateClassMembers,
    /// `no-unused-vars`.
    NoUnusedVars,
    /// `prefer-const`.
    PreferConst,
}

/// The rules, in the order of their names: tools/rules writes them.
pub const RULES: [RuleName; 117] = [
    RuleName::OnFlow(FlowRule::ArrayCallbackReturn),
    RuleName::OnFlow(FlowRule::ConsistentReturn),
    RuleName::OnFlow(FlowRule::ConstructorSuper),
    RuleName::OnNodes(NodeRule::Curly),
    RuleName::OnNodes(NodeRule::DefaultCaseLast),
    RuleName::OnNodes(NodeRule::DotNotation),
    RuleName::OnNodes(NodeRule::EqEqEq),
    RuleName::OnNodes(NodeRule::ForDirection),
    RuleName::OnFlow(FlowRule::GetterReturn),
    RuleName::OnReferences(ReferenceRule::NoAlert),
    RuleName::OnNodes(NodeRule::NoArrayConstructor),
    RuleName::OnNodes(NodeRule::NoAsyncPromiseExecutor),
    RuleName::OnNodes(NodeRule::NoCaller),
    RuleName::OnNodes(NodeRule::NoCaseDeclarations),
    RuleName::OnReferences(ReferenceRule::NoClassAssign),
    RuleName::OnNodes(NodeRule::NoCompareNegZero),
    RuleName::OnTexts(TextRule::NoCondAssign),
    RuleName::OnReferences(ReferenceRule::NoConstAssign),
    RuleName::OnNodes(NodeRule::NoConstantBinaryExpression),
    RuleName::OnNodes(NodeRule::NoConstantCondition),
    RuleName::OnNodes(NodeRule::NoContinue),
    RuleName::OnLiterals(LiteralRule::NoControlRegex),
    RuleName::OnNodes(NodeRule::NoDebugger),
    RuleName::OnLiterals(LiteralRule::NoDivRegex),
    RuleName::OnRepetitions(RepetitionRule::NoDupeClassMembers),
    RuleName::OnRepetitions(RepetitionRule::NoDupeElseIf),
    RuleName::OnRepetitions(RepetitionRule::NoDupeKeys),
    RuleName::OnRepetitions(RepetitionRule::NoDuplicateCase),
    RuleName::OnFlow(FlowRule::NoElseReturn),
    RuleName::OnNodes(NodeRule::NoEmpty),
    RuleName::OnLiterals(LiteralRule::NoEmptyCharacterClass),
    RuleName::OnNodes(NodeRule::NoEmptyPattern),
    RuleName::OnNodes(NodeRule::NoEmptyStaticBlock),
    RuleName::OnNodes(NodeRule::NoEval),
    RuleName::OnReferences(ReferenceRule::NoExAssign),
    RuleName::NoExtendNative,
    RuleName::OnNodes(NodeRule::NoExtraBooleanCast),
    RuleName::NoExtraParens,
    RuleName::OnNodes(NodeRule::NoExtraSemi),
    RuleName::OnFlow(FlowRule::NoFallthrough),
    RuleName::OnReferences(ReferenceRule::NoFuncAssign),
    RuleName::OnReferences(ReferenceRule::NoGlobalAssign),
    RuleName::OnNodes(NodeRule::NoImplicitCoercion),
    RuleName::OnReferences(ReferenceRule::NoImplicitGlobals),
    RuleName::OnReferences(ReferenceRule::NoImportAssign),
    RuleName::OnNodes(NodeRule::NoInnerDeclarations),
    RuleName::OnTexts(TextRule::NoIrregularWhitespace),
    RuleName::OnNodes(NodeRule::NoLabels),
    RuleName::OnNodes(NodeRule::NoLonelyIf),
    RuleName::OnValues(ValueRule::NoLossOfPrecision),
    RuleName::OnValues(ValueRule::NoMisleadingCharacterClass),
    RuleName::OnNodes(NodeRule::NoMultiAssign),
    RuleName::OnNodes(NodeRule::NoMultiStr),
    RuleName::OnNodes(NodeRule::NoNestedTernary),
    RuleName::OnNodes(NodeRule::NoNew),
    RuleName::OnNodes(NodeRule::NoNewFunc),
    RuleName::OnReferences(ReferenceRule::NoNewNativeNonconstructor),
    RuleName::OnNodes(NodeRule::NoNewObject),
    RuleName::OnReferences(ReferenceRule::NoNewSymbol),
    RuleName::OnNodes(NodeRule::NoNewWrappers),
    RuleName::OnReferences(ReferenceRule::NoObjCalls),
    RuleName::OnReferences(ReferenceRule::NoParamReassign),
    RuleName::OnNodes(NodeRule::NoPlusplus),
    RuleName::OnNodes(NodeRule::NoProto),
    RuleName::OnNodes(NodeRule::NoPrototypeBuiltins),
    RuleName::OnReferences(ReferenceRule::NoRedeclare),
    RuleName::OnLiterals(LiteralRule::NoRegexSpaces),
    RuleName::OnNodes(NodeRule::NoReturnAwait),
    RuleName::OnLiterals(LiteralRule::NoScriptUrl),
    RuleName::OnNodes(NodeRule::NoSelfAssign),
    RuleName::OnNodes(NodeRule::NoSelfCompare),
    RuleName::OnTexts(TextRule::NoSequences),
    RuleName::OnNodes(NodeRule::NoSetterReturn),
    RuleName::NoShadow,
    RuleName::OnReferences(ReferenceRule::NoShadowRestrictedNames),
    RuleName::OnNodes(NodeRule::NoSparseArrays),
    RuleName::OnLiterals(LiteralRule::NoTemplateCurlyInString),
    RuleName::OnNodes(NodeRule::NoTernary),
    RuleName::OnFlow(FlowRule::NoThisBeforeSuper),
    RuleName::OnNodes(NodeRule::NoThrowLiteral),
    RuleName::NoUndef,
    RuleName::OnNodes(NodeRule::NoUndefInit),
    RuleName::OnReferences(ReferenceRule::NoUndefined),
    RuleName::OnTexts(TextRule::NoUnexpectedMultiline),
    RuleName::OnNodes(NodeRule::NoUnneededTernary),
    RuleName::OnFlow(FlowRule::NoUnreachable),
    RuleName::OnFlow(FlowRule::NoUnreachableLoop),
    RuleName::OnNodes(NodeRule::NoUnsafeFinally),
    RuleName::OnNodes(NodeRule::NoUnsafeNegation),
    RuleName::OnNodes(NodeRule::NoUnsafeOptionalChaining),
    RuleName::OnNodes(NodeRule::NoUnusedExpressions),
    RuleName::OnNodes(NodeRule::NoUnusedLabels),
    RuleName::NoUnusedPrivateClassMembers,
    RuleName::NoUnusedVars,
    RuleName::OnReferences(ReferenceRule::NoUseBeforeDefine),
    RuleName::OnValues(ValueRule::NoUselessBackreference),
    RuleName::OnNodes(NodeRule::NoUselessCatch),
    RuleName::OnNodes(NodeRule::NoUselessComputedKey),
    RuleName::OnNodes(NodeRule::NoUselessConcat),
    RuleName::OnNodes(NodeRule::NoUselessConstructor),
    RuleName::OnLiterals(LiteralRule::NoUselessEscape),
    RuleName::OnNodes(NodeRule::NoUselessRename),
    RuleName::OnFlow(FlowRule::NoUselessReturn),
    RuleName::OnNodes(NodeRule::NoVar),
    RuleName::OnNodes(NodeRule::NoVoid),
    RuleName::OnNodes(NodeRule::ObjectShorthand),
    RuleName::OnNodes(NodeRule::OperatorAssignment),
    RuleName::PreferConst,
    RuleName::OnNodes(NodeRule::PreferExponentiationOperator),
    RuleName::OnNodes(NodeRule::PreferObjectHasOwn),
    RuleName::OnNodes(NodeRule::PreferTemplate),
    RuleName::OnNodes(NodeRule::Radix),
    RuleName::OnNodes(NodeRule::RequireYield),
    RuleName::OnNodes(NodeRule::SymbolDescription),
    RuleName::OnNodes(NodeRule::UseIsNan),
    RuleName::OnNodes(NodeRule::ValidTypeof),
    RuleName::OnNodes(NodeRule::Yoda),
];

/// The nine rules that are on where settings say nothing: tools/rules writes them.
pub(crate) const NINE: [RuleName; 9] = [
    RuleName::OnNodes(NodeRule::EqEqEq),
    RuleName::OnNodes(NodeRule::NoDebugger),
    RuleName::OnNodes(NodeRule::NoEmpty),
    RuleName::NoExtraParens,
    RuleName::NoShadow,
    RuleName::NoUndef,
    RuleName::NoUnusedVars,
    RuleName::OnNodes(NodeRule::NoVar),
    RuleName::PreferConst,
];

/// Those that ESLint recommends, by its 8th version or by its 9th: tools/rules writes them.
pub(crate) const RECOMMENDED: [RuleName; 58] = [
    RuleName::OnFlow(FlowRule::ConstructorSuper),
    RuleName::OnNodes(NodeRule::ForDirection),
    RuleName::OnFlow(FlowRule::GetterReturn),
    RuleName::OnNodes(NodeRule::NoAsyncPromiseExecutor),
    RuleName::OnNodes(NodeRule::NoCaseDeclarations),
    RuleName::OnReferences(ReferenceRule::NoClassAssign),
    RuleName::OnNodes(NodeRule::NoCompareNegZero),
    RuleName::OnTexts(TextRule::NoCondAssign),
    RuleName::OnReferences(ReferenceRule::NoConstAssign),
    RuleName::OnNodes(NodeRule::NoConstantBinaryExpression),
    RuleName::OnNodes(NodeRule::NoConstantCondition),
    RuleName::OnLiterals(LiteralRule::NoControlRegex),
    RuleName::OnNodes(NodeRule::NoDebugger),
    RuleName::OnRepetitions(RepetitionRule::NoDupeClassMembers),
    RuleName::OnRepetitions(RepetitionRule::NoDupeElseIf),
    RuleName::OnRepetitions(RepetitionRule::NoDupeKeys),
    RuleName::OnRepetitions(RepetitionRule::NoDuplicateCase),
    RuleName::OnNodes(NodeRule::NoEmpty),
    RuleName::OnLiterals(LiteralRule::NoEmptyCharacterClass),
    RuleName::OnNodes(NodeRule::NoEmptyPattern),
    RuleName::OnNodes(NodeRule::NoEmptyStaticBlock),
    RuleName::OnReferences(ReferenceRule::NoExAssign),
    RuleName::OnNodes(NodeRule::NoExtraBooleanCast),
    RuleName::OnNodes(NodeRule::NoExtraSemi),
    RuleName::OnFlow(FlowRule::NoFallthrough),
    RuleName::OnReferences(ReferenceRule::NoFuncAssign),
    RuleName::OnReferences(ReferenceRule::NoGlobalAssign),
    RuleName::OnReferences(ReferenceRule::NoImportAssign),
    RuleName::OnNodes(NodeRule::NoInnerDeclarations),
    RuleName::OnTexts(TextRule::NoIrregularWhitespace),
    RuleName::OnValues(ValueRule::NoLossOfPrecision),
    RuleName::OnValues(ValueRule::NoMisleadingCharacterClass),
    RuleName::OnReferences(ReferenceRule::NoNewNativeNonconstructor),
    RuleName::OnReferences(ReferenceRule::NoNewSymbol),
    RuleName::OnReferences(ReferenceRule::NoObjCalls),
    RuleName::OnNodes(NodeRule::NoPrototypeBuiltins),
    RuleName::OnReferences(ReferenceRule::NoRedeclare),
    RuleName::OnLiterals(LiteralRule::NoRegexSpaces),
    RuleName::OnNodes(NodeRule::NoSelfAssign),
    RuleName::OnNodes(NodeRule::NoSetterReturn),
    RuleName::OnReferences(ReferenceRule::NoShadowRestrictedNames),
    RuleName::OnNodes(NodeRule::NoSparseArrays),
    RuleName::OnFlow(FlowRule::NoThisBeforeSuper),
    RuleName::NoUndef,
    RuleName::OnTexts(TextRule::NoUnexpectedMultiline),
    RuleName::OnFlow(FlowRule::NoUnreachable),
    RuleName::OnNodes(NodeRule::NoUnsafeFinally),
    RuleName::OnNodes(NodeRule::NoUnsafeNegation),
    RuleName::OnNodes(NodeRule::NoUnsafeOptionalChaining),
    RuleName::OnNodes(NodeRule::NoUnusedLabels),
    RuleName::NoUnusedPrivateClassMembers,
    RuleName::NoUnusedVars,
    RuleName::OnValues(ValueRule::NoUselessBackreference),
    RuleName::OnNodes(NodeRule::NoUselessCatch),
    RuleName::OnLiterals(LiteralRule::NoUselessEscape),
    RuleName::OnNodes(NodeRule::RequireYield),
    RuleName::OnNodes(NodeRule::UseIsNan),
    RuleName::OnNodes(NodeRule::ValidTypeof),
];

impl RuleName {
    ghost use Rattle.std.specs.Prelude.{◌≡◌};
    ghost use Rattle.rules.specs.RuleNames.{called, looks_at_pairs, looks_at_scopes};

    /// What settings and reports call it.
    pub fn as_str(self) -> &'static str
        ensures { result.now ≡ called self }
    {
        match self {
            RuleName::OnNodes(rule) => rule.name(),
            RuleName::OnReferences(rule) => rule.name(),
            RuleName::OnRepetitions(rule) => rule.name(),
            RuleName::OnFlow(rule) => rule.name(),
            RuleName::OnLiterals(rule) => rule.name(),
            RuleName::OnTexts(rule) => rule.name(),
            RuleName::OnValues(rule) => rule.name(),
            RuleName::NoExtendNative => "no-extend-native",
            RuleName::NoExtraParens => "no-extra-parens",
            RuleName::NoShadow => "no-shadow",
            RuleName::NoUndef => "no-undef",
            RuleName::NoUnusedPrivateClassMembers => "no-unused-private-class-members",
            RuleName::NoUnusedVars => "no-unused-vars",
            RuleName::PreferConst => "prefer-const",
        }
    }

    /// Whether it looks at scopes.
    pub(crate) fn looks_at_scopes(self) -> bool
        ensures { result ≡ looks_at_scopes self }
    {
        matches!(
            self,
            RuleName::OnReferences(_)
                | RuleName::NoExtendNative
                | RuleName::NoShadow
                | RuleName::NoUndef
                | RuleName::NoUnusedVars
                | RuleName::PreferConst
        )
    }

    /// Whether it looks at the extra pairs of parentheses.
    pub(crate) fn looks_at_pairs(self) -> bool
        ensures { result ≡ looks_at_pairs self }
    {
        matches!(self, RuleName::NoExtraParens)
    }
}
