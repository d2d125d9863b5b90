//! The rules, rules of others in boxes, the settings that both look at, and the lines of reports.
//! - May touch: what a `View` shows: tree, scopes, extra pairs, settings. No rule knows another.
//! - Contract: `run_rules` answers all that the rules which are on find, by what each says of itself, sorted.
//! - Begin at: `rule.rt`, `Rule`; `run.rt`, `run_rules`; `rule_list.rt` says which rules there are, `groups.rt` how those of one crate run
//!   together: rows of `node_rules`, `reference_rules`, `repetition_rules`, `flow_rules`, `literal_rules`, `text_rules` and `value_rules`. The others have a file each.
#![tactic(auto)]

mod bindings;
mod environment;
mod groups;
mod interface_names;
mod key_faults;
mod known_keys;
mod languages;
mod left_alone;
mod lines;
mod listed_names;
mod look_up;
mod misfit;
mod name_lists;
mod no_extend_native;
mod no_extra_parens;
mod no_shadow;
mod no_undef;
mod no_unused_private_class_members;
mod no_unused_vars;
mod prefer_const;
mod rule;
mod rule_list;
mod rule_option;
mod rule_set;
mod rule_settings;
mod run;
mod script_names;
mod settings;
mod settings_error;
mod settings_fault;
mod settings_from_toml;
mod severity;
mod shipped_rule;
mod sorted_names;
mod used_bindings;
mod view;
mod window_names;
mod worker_names;

pub use environment::{Environment, Environments};
pub use flow_rules::FlowRule;
pub use languages::Languages;
pub use lines::{report_lines, report_status, span_lines};
pub use literal_rules::LiteralRule;
pub use misfit::Misfit;
pub use name_lists::NameList;
pub use no_extend_native::NoExtendNative;
pub use no_extra_parens::NoExtraParens;
pub use no_shadow::NoShadow;
pub use no_undef::NoUndef;
pub use no_unused_private_class_members::NoUnusedPrivateClassMembers;
pub use no_unused_vars::NoUnusedVars;
pub use node_rules::NodeRule;
pub use prefer_const::PreferConst;
pub use reference_rules::ReferenceRule;
pub use repetition_rules::RepetitionRule;
pub use rule::Rule;
pub use rule_list::{RULES, RuleName};
pub use rule_option::{CheckedParams, RuleOption, RuleOptions};
pub use rule_words::Report;
pub use run::{look_at_pairs, look_at_scopes, run_rules};
pub use settings::Settings;
pub use settings_error::SettingsError;
pub use settings_fault::{FaultText, SettingsFault};
pub use shipped_rule::ShippedRule;
pub use text_rules::TextRule;
pub use view::View;
