//! The environments that scripts run in, and which global names each has.

ghost use Rattle.std.specs.Prelude.{◌≡◌};
ghost use Rattle.rules.specs.Environments.{is_browser_name, is_worker_name, is_shared_name};

use crate::interface_names::{is_device_interface, is_svg_interface};
use crate::script_names::{
    is_commonjs_name, is_es2022_name, is_jest_name, is_mocha_name, is_node_name,
};
use crate::window_names::{
    is_document_interface, is_event_handler, is_html_interface, is_window_member,
};
use crate::worker_names::{is_shared_interface, is_shared_member, is_worker_member};

/// Where scripts run, or what they run under.
#[derive(Clone, Copy, Debug, PartialEq, Eq)]
pub enum Environment {
    /// A window of a browser.
    Browser,
    /// Node.
    Node,
    /// A module of CommonJS.
    CommonJs,
    /// A worker of a browser.
    Worker,
    /// An engine of ECMAScript 2022.
    Es2022,
    /// Mocha, for tests.
    Mocha,
    /// Jest, for tests.
    Jest,
}

impl Environment {
    ghost use Rattle.std.specs.Prelude.{◌≡◌};
    ghost use Rattle.rules.specs.Environments.{environment_of};

    /// The environment that settings call so, if there is one.
    pub(crate) fn named(name: &str) -> Option<Environment>
        ensures { result ≡ environment_of name.now }
    {
        match name {
            "browser" => Some(Environment::Browser),
            "node" => Some(Environment::Node),
            "commonjs" => Some(Environment::CommonJs),
            "worker" => Some(Environment::Worker),
            "es2022" => Some(Environment::Es2022),
            "mocha" => Some(Environment::Mocha),
            "jest" => Some(Environment::Jest),
            _ => None,
        }
    }
}

/// Which environments scripts are for.
#[derive(Clone, Copy, Debug, PartialEq, Eq)]
pub struct Environments {
    browser: bool,
    node: bool,
    commonjs: bool,
    worker: bool,
    es2022: bool,
    mocha: bool,
    jest: bool,
}

impl Environments {
    ghost use Rattle.std.specs.Prelude.{◌≡◌};
    ghost use Rattle.rules.specs.Environments.{has_name, no_environments, with_environment};

    /// None.
    pub(crate) fn none() -> Environments
        ensures { result ≡ no_environments }
    {
        Environments {
            browser: false,
            node: false,
            commonjs: false,
            worker: false,
            es2022: false,
            mocha: false,
            jest: false,
        }
    }

    /// These and one more.
    pub(crate) fn with(self, environment: Environment) -> Environments
        ensures { result ≡ with_environment self environment }
    {
        let mut environments = self;
        match environment {
            Environment::Browser => environments.browser = true,
            Environment::Node => environments.node = true,
            Environment::CommonJs => environments.commonjs = true,
            Environment::Worker => environments.worker = true,
            Environment::Es2022 => environments.es2022 = true,
            Environment::Mocha => environments.mocha = true,
            Environment::Jest => environments.jest = true,
        }
        environments
    }

    /// Whether one of these has a global of this name.
    #[tactic(auto, unfolding(crate::specs::Environments::has_name))]
    pub(crate) fn has_name(self, name: &str) -> bool
        ensures { result ≡ has_name self name.now }
    {
        (self.browser && is_browser_name(name))
            || (self.node && is_node_name(name))
            || (self.commonjs && is_commonjs_name(name))
            || (self.worker && is_worker_name(name))
            || (self.es2022 && is_es2022_name(name))
            || (self.mocha && is_mocha_name(name))
            || (self.jest && is_jest_name(name))
    }
}

/// Whether windows and workers have the name.
fn is_shared_name(name: &str) -> bool
    ensures { result ≡ is_shared_name name.now }
{
    is_shared_member(name) || is_shared_interface(name)
}

/// Whether windows have the name.
fn is_browser_name(name: &str) -> bool
    ensures { result ≡ is_browser_name name.now }
{
    is_window_member(name)
        || is_shared_name(name)
        || is_html_interface(name)
        || is_document_interface(name)
        || is_event_handler(name)
        || is_svg_interface(name)
        || is_device_interface(name)
}

/// Whether workers have the name.
fn is_worker_name(name: &str) -> bool
    ensures { result ≡ is_worker_name name.now }
{
    is_shared_name(name) || is_worker_member(name)
}
