// The names of a day file: which command a line asks for, and the names that its fields may have.
#![tactic(auto)]

ghost use Rattle.std.specs.Prelude.{◌≡◌};
ghost use Rattle.day_names.specs.Names.{setting_named, act_named, is_bit_series, command_of, policy_of, acceptance_of, drafter_of, prices_of, is_none};

// What a line asks for.
#[derive(Clone, Copy)]
pub enum Command {
    Nothing,
    Gamma,
    Policy,
    Acceptance,
    Drafter,
    Switch,
    Rates,
    Roofline,
    Table,
    Loaded,
    Prices,
    Plan,
    Collect,
    Withdraw,
    Series,
    SeriesBits,
    Day,
    Settles,
}

#[derive(Clone, Copy)]
pub enum PolicyName {
    Fixed,
    GoodputBudget,
    GatedBudget,
    GatedAggregate,
}

#[derive(Clone, Copy)]
pub enum AcceptanceName {
    Constant,
    PerPosition,
    Trace,
}

#[derive(Clone, Copy)]
pub enum DrafterName {
    Fraction,
    Autoregressive,
    BlockParallel,
    Absent,
}

#[derive(Clone, Copy)]
pub enum PricesName {
    Default,
    Bridged,
}

// The command of a line, by its first field; none where that is no command's name. A line that is empty before its comment asks for nothing.
#[tactic(auto, unfolding(crate::specs::Names::command_of))]
pub fn command_of(line: &[u8]) -> Option<Command>
    ensures { result ≡ command_of line.now }
{
    if day_line::uncommented(line).is_empty() {
        return Some(Command::Nothing);
    }
    if is_bit_series(line) {
        return Some(Command::SeriesBits);
    }
    setting_named(day_line::field(line, 0))
}

// Whether a line asks for the series in bits: `series,bits`.
fn is_bit_series(line: &[u8]) -> bool
    ensures { result ≡ is_bit_series line.now }
{
    text::same(day_line::field(line, 0), b"series") && text::same(day_line::field(line, 1), b"bits")
}

// The command of this name, if it is one: those that set something first.
#[tactic(auto, unfolding(crate::specs::Names::setting_named))]
fn setting_named(name: &[u8]) -> Option<Command>
    ensures { result ≡ setting_named name.now }
{
    if text::same(name, b"gamma") {
        return Some(Command::Gamma);
    }
    if text::same(name, b"policy") {
        return Some(Command::Policy);
    }
    if text::same(name, b"acceptance") {
        return Some(Command::Acceptance);
    }
    if text::same(name, b"drafter") {
        return Some(Command::Drafter);
    }
    if text::same(name, b"switch") {
        return Some(Command::Switch);
    }
    if text::same(name, b"rates") {
        return Some(Command::Rates);
    }
    if text::same(name, b"roofline") {
        return Some(Command::Roofline);
    }
    if text::same(name, b"table") {
        return Some(Command::Table);
    }
    if text::same(name, b"loaded") {
        return Some(Command::Loaded);
    }
    if text::same(name, b"prices") {
        return Some(Command::Prices);
    }
    act_named(name)
}

// The command of this name that acts or tells, if it is one.
#[tactic(auto, unfolding(crate::specs::Names::act_named))]
fn act_named(name: &[u8]) -> Option<Command>
    ensures { result ≡ act_named name.now }
{
    if text::same(name, b"plan") {
        return Some(Command::Plan);
    }
    if text::same(name, b"collect") {
        return Some(Command::Collect);
    }
    if text::same(name, b"withdraw") {
        return Some(Command::Withdraw);
    }
    if text::same(name, b"series") {
        return Some(Command::Series);
    }
    if text::same(name, b"day") {
        return Some(Command::Day);
    }
    if text::same(name, b"settles") {
        return Some(Command::Settles);
    }
    None
}

// The policy of this name, if there is one.
#[tactic(auto, unfolding(crate::specs::Names::policy_of))]
pub fn policy_of(name: &[u8]) -> Option<PolicyName>
    ensures { result ≡ policy_of name.now }
{
    if text::same(name, b"fixed") {
        return Some(PolicyName::Fixed);
    }
    if text::same(name, b"goodput_budget") {
        return Some(PolicyName::GoodputBudget);
    }
    if text::same(name, b"gated_budget") {
        return Some(PolicyName::GatedBudget);
    }
    if text::same(name, b"gated_aggregate") {
        return Some(PolicyName::GatedAggregate);
    }
    None
}

// The way of accepting drafts of this name, if there is one.
#[tactic(auto, unfolding(crate::specs::Names::acceptance_of))]
pub fn acceptance_of(name: &[u8]) -> Option<AcceptanceName>
    ensures { result ≡ acceptance_of name.now }
{
    if text::same(name, b"constant") {
        return Some(AcceptanceName::Constant);
    }
    if text::same(name, b"per_position") {
        return Some(AcceptanceName::PerPosition);
    }
    if text::same(name, b"trace") {
        return Some(AcceptanceName::Trace);
    }
    None
}

// The drafter of this name, if there is one; `none` is no drafter.
#[tactic(auto, unfolding(crate::specs::Names::drafter_of))]
pub fn drafter_of(name: &[u8]) -> Option<DrafterName>
    ensures { result ≡ drafter_of name.now }
{
    if text::same(name, b"fraction") {
        return Some(DrafterName::Fraction);
    }
    if text::same(name, b"autoregressive") {
        return Some(DrafterName::Autoregressive);
    }
    if text::same(name, b"block_parallel") {
        return Some(DrafterName::BlockParallel);
    }
    if is_none(name) {
        return Some(DrafterName::Absent);
    }
    None
}

// The price mode of this name, if there is one.
#[tactic(auto, unfolding(crate::specs::Names::prices_of))]
pub fn prices_of(name: &[u8]) -> Option<PricesName>
    ensures { result ≡ prices_of name.now }
{
    if text::same(name, b"default") {
        return Some(PricesName::Default);
    }
    if text::same(name, b"bridged") {
        Some(PricesName::Bridged)
    } else {
        None
    }
}

// Whether a field is `none`.
pub fn is_none(name: &[u8]) -> bool
    ensures { result ≡ is_none name.now }
{
    text::same(name, b"none")
}
