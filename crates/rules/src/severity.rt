//! How much the reports of a rule weigh.

/// Whether a rule is on, and whether its reports are errors.
#[derive(Clone, Copy, Debug, PartialEq, Eq)]
pub enum Severity {
    /// The rule isn't run.
    Off,
    /// Its reports are warnings.
    Warn,
    /// Its reports are errors.
    Error,
}

impl Severity {
    ghost use Rattle.std.specs.Prelude.{◌≡◌};
    ghost use Rattle.rules.specs.Severities.{is_severity, narrowed, severity_named, severity_numbered, severity_of_flag};

    /// The severity that settings call so, if there is one.
    pub(crate) fn named(name: &str) -> Option<Severity>
        ensures { result ≡ severity_named name.now }
    {
        match name {
            "off" => Some(Severity::Off),
            "warn" => Some(Severity::Warn),
            "error" => Some(Severity::Error),
            _ => None,
        }
    }

    /// The severity of a number, if it is that of one.
    pub(crate) fn numbered(number: i64) -> Option<Severity>
        ensures { result ≡ severity_numbered number }
    {
        match number {
            0 => Some(Severity::Off),
            1 => Some(Severity::Warn),
            2 => Some(Severity::Error),
            _ => None,
        }
    }

    /// The severity of a rule that is on, or off, without more.
    pub(crate) fn of_flag(is_on: bool) -> Severity
        ensures { result ≡ severity_of_flag is_on }
    {
        if is_on {
            Severity::Error
        } else {
            Severity::Off
        }
    }

    /// The severity where only some rules are asked for: a rule that is one of them is on, another one is off.
    pub(crate) fn narrowed(self, is_asked_for: bool) -> Severity
        ensures { result ≡ narrowed is_asked_for self }
    {
        match self {
            Severity::Warn if is_asked_for => Severity::Warn,
            _ if is_asked_for => Severity::Error,
            _ => Severity::Off,
        }
    }

    /// Whether it is this one.
    pub(crate) fn is(self, other: Severity) -> bool
        ensures { result ≡ is_severity self other }
    {
        match (self, other) {
            (Severity::Off, Severity::Off)
            | (Severity::Warn, Severity::Warn)
            | (Severity::Error, Severity::Error) => true,
            _ => false,
        }
    }
}
