// The names of a day file. Each answer is the number of a case, counted from 0 as the cases are declared, and the next number where
// there is none of the name.
ghost use Rattle.std.specs.Prelude.{◌≡◌};
ghost use Rattle.day_names.specs.Names.{command_of, policy_of, acceptance_of, drafter_of, prices_of, is_none};
ghost use Rattle.exported_days.specs.Days.{command_number, policy_number, acceptance_number, drafter_number, prices_number};

use day_names::{AcceptanceName, Command, DrafterName, PolicyName, PricesName};

#[unsafe(no_mangle)]
pub extern "C" fn day_names_command_of(line: &[u8]) -> u64
    ensures { result ≡ command_number (command_of line.now) }
{
    match day_names::command_of(line) {
        Some(Command::Nothing) => 0,
        Some(Command::Gamma) => 1,
        Some(Command::Policy) => 2,
        Some(Command::Acceptance) => 3,
        Some(Command::Drafter) => 4,
        Some(Command::Switch) => 5,
        Some(Command::Rates) => 6,
        Some(Command::Roofline) => 7,
        Some(Command::Table) => 8,
        Some(Command::Loaded) => 9,
        Some(Command::Prices) => 10,
        Some(Command::Plan) => 11,
        Some(Command::Collect) => 12,
        Some(Command::Withdraw) => 13,
        Some(Command::Series) => 14,
        Some(Command::SeriesBits) => 15,
        Some(Command::Day) => 16,
        Some(Command::Settles) => 17,
        None => 18,
    }
}

#[unsafe(no_mangle)]
pub extern "C" fn day_names_policy_of(name: &[u8]) -> u64
    ensures { result ≡ policy_number (policy_of name.now) }
{
    match day_names::policy_of(name) {
        Some(PolicyName::Fixed) => 0,
        Some(PolicyName::GoodputBudget) => 1,
        Some(PolicyName::GatedBudget) => 2,
        Some(PolicyName::GatedAggregate) => 3,
        None => 4,
    }
}

#[unsafe(no_mangle)]
pub extern "C" fn day_names_acceptance_of(name: &[u8]) -> u64
    ensures { result ≡ acceptance_number (acceptance_of name.now) }
{
    match day_names::acceptance_of(name) {
        Some(AcceptanceName::Constant) => 0,
        Some(AcceptanceName::PerPosition) => 1,
        Some(AcceptanceName::Trace) => 2,
        None => 3,
    }
}

#[unsafe(no_mangle)]
pub extern "C" fn day_names_drafter_of(name: &[u8]) -> u64
    ensures { result ≡ drafter_number (drafter_of name.now) }
{
    match day_names::drafter_of(name) {
        Some(DrafterName::Fraction) => 0,
        Some(DrafterName::Autoregressive) => 1,
        Some(DrafterName::BlockParallel) => 2,
        Some(DrafterName::Absent) => 3,
        None => 4,
    }
}

#[unsafe(no_mangle)]
pub extern "C" fn day_names_prices_of(name: &[u8]) -> u64
    ensures { result ≡ prices_number (prices_of name.now) }
{
    match day_names::prices_of(name) {
        Some(PricesName::Default) => 0,
        Some(PricesName::Bridged) => 1,
        None => 2,
    }
}

#[unsafe(no_mangle)]
pub extern "C" fn day_names_is_none(name: &[u8]) -> bool
    ensures { result ≡ is_none name.now }
{
    day_names::is_none(name)
}
