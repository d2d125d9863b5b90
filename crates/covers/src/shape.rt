//! What a cover may be.

ghost use Rattle.std.specs.Prelude.{◌≡◌};
ghost use Rattle.covers.specs.Shapes.{is_element, is_pattern, is_target, is_bound, is_either, shape_of, defaulted, simple, grouped, unassigned, initialized, together, with_element, with_rest};

use productions::MeasuredNode;
use tree::Kind;

/// What a cover may be.
#[derive(Clone, Copy, Debug, PartialEq, Eq)]
pub struct CoverShape {
    /// An expression: no name in an object in it has a default, but for those in a pattern that is assigned to.
    pub is_expression: bool,
    /// What it may be as an element of a pattern.
    pub assigned: TargetForm,
    /// Where it may be such an element: its targets are names alone, none of them in parentheses.
    pub binds: bool,
}

/// What a cover may be as an element of a pattern.
#[derive(Clone, Copy, Debug, PartialEq, Eq)]
pub enum TargetForm {
    Nothing,
    /// A simple target: a name, or a member outside an optional chain (ECMA-262 clause 12.15.1).
    Target,
    /// An array or object pattern.
    Pattern,
    /// Either of them with a default.
    Defaulted,
}

impl TargetForm {
    /// Whether it is a target or a pattern, with a default or without.
    pub fn is_element(self) -> bool
        ensures { result ≡ is_element self }
    {
        !matches!(self, TargetForm::Nothing)
    }

    /// Whether it is a target or a pattern.
    pub fn is_pattern(self) -> bool
        ensures { result ≡ is_pattern self }
    {
        matches!(self, TargetForm::Target | TargetForm::Pattern)
    }

    /// Whether it is a target.
    pub fn is_target(self) -> bool
        ensures { result ≡ is_target self }
    {
        matches!(self, TargetForm::Target)
    }
}

impl CoverShape {
    /// Of an array or object with nothing in it.
    pub const EMPTY: CoverShape = CoverShape {
        is_expression: true,
        assigned: TargetForm::Pattern,
        binds: true,
    };

    /// Of an expression that is no element of a pattern.
    pub const VALUE: CoverShape = CoverShape {
        is_expression: true,
        assigned: TargetForm::Nothing,
        binds: false,
    };

    /// Of a member outside an optional chain.
    pub const TARGET: CoverShape = CoverShape {
        is_expression: true,
        assigned: TargetForm::Target,
        binds: false,
    };

    /// Of a name.
    pub const NAME: CoverShape = CoverShape {
        is_expression: true,
        assigned: TargetForm::Target,
        binds: true,
    };

    /// Of an expression that is no array, no object and no assignment: a name, a member outside an optional chain, or another.
    #[inline(always)]
    pub fn of(expression: &MeasuredNode) -> CoverShape
        ensures { result ≡ shape_of expression.now }
    {
        match expression.kind() {
            Kind::Identifier => CoverShape::NAME,
            Kind::MemberExpression if !expression.is_optional() => CoverShape::TARGET,
            _ => CoverShape::VALUE,
        }
    }

    /// Of `target = value`, by the shape of the target.
    pub fn defaulted(self) -> CoverShape
        ensures { result ≡ defaulted self }
    {
        CoverShape {
            is_expression: true,
            assigned: match self.assigned.is_pattern() {
                true => TargetForm::Defaulted,
                false => TargetForm::Nothing,
            },
            binds: self.binds,
        }
    }

    /// This shape, but assigned to only where it is a target: behind `...` among properties (12.15.5).
    pub fn simple(self) -> CoverShape
        ensures { result ≡ simple self }
    {
        CoverShape {
            is_expression: self.is_expression,
            assigned: match self.assigned.is_target() {
                true => TargetForm::Target,
                false => TargetForm::Nothing,
            },
            binds: self.binds,
        }
    }

    /// This shape in parentheses (12.15.5): only a target may still be assigned to, and nothing bound.
    pub fn grouped(self) -> CoverShape
        ensures { result ≡ grouped self }
    {
        let simple = self.simple();
        CoverShape {
            is_expression: simple.is_expression,
            assigned: simple.assigned,
            binds: false,
        }
    }

    /// This shape, but no pattern.
    pub fn unassigned(self) -> CoverShape
        ensures { result ≡ unassigned self }
    {
        CoverShape {
            is_expression: self.is_expression,
            assigned: TargetForm::Nothing,
            binds: false,
        }
    }

    /// This shape, but no expression: a name in it has a default (CoverInitializedName, 12.2.6).
    pub fn initialized(self) -> CoverShape
        ensures { result ≡ initialized self }
    {
        CoverShape {
            is_expression: false,
            assigned: self.assigned,
            binds: self.binds,
        }
    }

    /// The shape together with a part, which may be in a pattern only if `fits`.
    fn with(self, part: CoverShape, fits: bool) -> CoverShape
        ensures { result ≡ together self part fits }
    {
        CoverShape {
            is_expression: self.is_expression && part.is_expression,
            assigned: match fits {
                true => self.assigned,
                false => TargetForm::Nothing,
            },
            binds: self.binds && part.binds,
        }
    }

    /// With one more element, or the value of one more property.
    pub fn with_element(self, element: CoverShape) -> CoverShape
        ensures { result ≡ with_element self element }
    {
        self.with(element, element.assigned.is_element())
    }

    /// With a last element behind `...` (12.15.5).
    pub fn with_rest(self, argument: CoverShape) -> CoverShape
        ensures { result ≡ with_rest self argument }
    {
        self.with(argument, argument.assigned.is_pattern())
    }

    /// Whether it may be an element of a pattern whose names are bound, or a parameter.
    pub fn is_bound(self) -> bool
        ensures { result ≡ is_bound self }
    {
        self.binds && self.assigned.is_element()
    }

    /// Whether it may be an expression, or an element of a pattern that is assigned to.
    pub fn is_either(self) -> bool
        ensures { result ≡ is_either self }
    {
        self.is_expression || self.assigned.is_element()
    }
}
