//! The flags of a node in the finished tree.

use crate::kind::{Flags, Form};
use std::marker::Model;

/// A node's flags in two bytes; contracts see them as the flags.
#[derive(Clone, Copy)]
pub(crate) struct FlagBits {
    form: Form,
    /// A bit for each yes and no, those of `Flags` in their order from the lowest bit on.
    bits: u8,
}

impl Model for FlagBits {
    ghost use Rattle.std.specs.Prelude.{◌<◌};
    ghost use Rattle.std.proofs.Common.{ap};
    ghost use Rattle.tree.specs.declared.kind.Flags.{Flags};
    ghost use Rattle.tree.specs.FlagBits.{flags_in, bits_of};
    ghost use Rattle.tree.specs.KeptFlags.{bits_of-flags_in};

    ghost Value = { Flags };

    ghost view = { λ f. flags_in f.form f.bits };

    ghost invariant = { λ f. f.bits < 64 };

    ghost inverse = { λ g. record { form = g.form; bits = bits_of g } };

    ghost inverse_ok = { λ f h. ap (λ n. record { form = f.form; bits = n }) (bits_of-flags_in f.form f.bits h) };
}

impl FlagBits {
    ghost use Rattle.std.specs.Prelude.{◌≡◌};

    /// These flags.
    #[inline(always)]
    pub(crate) fn of(flags: Flags) -> FlagBits
        ensures { result ≡ flags }
    {
        let bits = u8::from(flags.computed)
            + 2 * u8::from(flags.optional)
            + 4 * u8::from(flags.is_static)
            + 8 * u8::from(flags.prefix)
            + 16 * u8::from(flags.directive)
            + 32 * u8::from(flags.expression);
        FlagBits {
            form: flags.form,
            bits,
        }
    }

    /// The flags.
    #[inline(always)]
    pub(crate) fn flags(self) -> Flags
        ensures { result ≡ self }
    {
        let bits = self.bits;
        Flags {
            computed: bits & 1 != 0,
            optional: bits & 2 != 0,
            is_static: bits & 4 != 0,
            prefix: bits & 8 != 0,
            directive: bits & 16 != 0,
            expression: bits & 32 != 0,
            form: self.form,
        }
    }
}
