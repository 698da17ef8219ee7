// What the rules of an edition find: the first rule that an entry breaks, and the first entry that breaks one.
ghost use Rattle.std.specs.Prelude.{◌≡◌, map, IfOk, None, Option, Result, ⊤};
ghost use Rattle.std.specs.Result.{result_err};
ghost use Rattle.market.specs.Faults.{supplier_fault, configuration_fault, combination_fault};
ghost use Rattle.market.specs.Lists.{listed, ids_of};
ghost use Rattle.market.specs.Tests.{first_broken, id_rule, ids_broken, configuration_rule, configurations_broken, regimes_rule, is_listed, field_rule, follows, combination_rule, combinations_broken};

use crate::ascents::Ascending;
use crate::edition::{Combination, Configuration};
use crate::faults::{CombinationRule, ConfigurationRule, EditionFault, IdRule};
use crate::keys::Keyed;
use fields::days::is_day;
use fields::letters::Group;

const MAXIMUM_REGIMES: usize = 4;

const MAXIMUM_CLASS: u8 = 16;

const MAXIMUM_DEFAULT: u32 = 2_000_000_000;

// Judges each entry beside the one before it, up to the first that breaks a rule: which one, and at what place.
fn check_each<X: Copy, R: Copy, F: Fn(Option<X>, X) -> Result<(), R>>(
    entries: &[X],
    check: F,
) -> Result<(), (R, usize)>
    requires { F.IsAlwaysCallable check }
    ensures { (rule : Option X → X → Option R) → ((before : Option X) (x : X) (r : Result ⊤ R) → F.post check before x r → result_err r ≡ rule before x) → result_err result ≡ first_broken (λ x. x) rule None 0 entries.now }
{
    let mut before = None;
    for (place, entry) in entries.iter().enumerate() {
        if let Err(rule) = check(before, *entry) {
            return Err((rule, place));
        }
        before = Some(*entry);
    }
    Ok(())
}

fn check_id(before: Option<u16>, id: u16) -> Result<(), IdRule>
    ensures { result_err result ≡ id_rule before id }
{
    if id == 0 {
        return Err(IdRule::Range);
    }
    match before {
        Some(last) if last >= id => Err(IdRule::Order),
        _ => Ok(()),
    }
}

fn check_ids(ids: &[u16]) -> Result<(), (IdRule, usize)>
    ensures { result_err result ≡ ids_broken ids.now }
{
    check_each(ids, check_id)
}

pub(crate) fn check_suppliers(suppliers: &[u16]) -> Result<(), EditionFault>
    ensures { result_err result ≡ supplier_fault (ids_broken suppliers.now) }
{
    check_ids(suppliers).map_err(|(rule, place)| EditionFault::Supplier(rule, place))
}

fn check_regimes(regimes: &[u16]) -> Result<(), ConfigurationRule>
    ensures { result_err result ≡ regimes_rule regimes.now }
{
    if !(1..=MAXIMUM_REGIMES).contains(&regimes.len()) {
        return Err(ConfigurationRule::RegimeCount);
    }
    check_ids(regimes).map_err(|(rule, place)| ConfigurationRule::Regime(rule, place))
}

fn check_configuration(
    before: Option<u16>,
    configuration: &Configuration<'_>,
) -> Result<(), ConfigurationRule>
    ensures { result_err result ≡ configuration_rule before (listed configuration.now) }
{
    check_id(before, configuration.id).map_err(ConfigurationRule::Id)?;
    check_regimes(configuration.regimes)
}

fn check_each_configuration(
    configurations: &[Configuration<'_>],
) -> Result<(), (ConfigurationRule, usize)>
    ensures { result_err result ≡ configurations_broken (map listed configurations.now) }
{
    check_each(configurations, |before, configuration| {
        check_configuration(before.map(|last| last.id), &configuration)
    })
}

// Those that break no rule ascend.
pub(crate) fn check_configurations<'a>(
    configurations: &'a [Configuration<'a>],
) -> Result<Ascending<'a, Configuration<'a>>, EditionFault>
    ensures fault { result_err result ≡ configuration_fault (configurations_broken (map listed configurations.now)) }
    ensures list { IfOk result (λ list. list.entries ≡ configurations.entry) }
{
    let checked = check_each_configuration(configurations);
    checked.map_err(|(rule, place)| EditionFault::Configuration(rule, place))?;
    Ok(Ascending {
        entries: configurations,
    })
}

fn is_listed(configurations: &Ascending<'_, Configuration<'_>>, id: u16) -> bool
    ensures { result ≡ is_listed id (ids_of (map listed configurations.now.entries.now)) }
{
    configurations.find(id).is_some()
}

// What a combination breaks by itself, whatever is listed beside it.
fn check_fields(combination: &Combination) -> Result<(), CombinationRule>
    ensures { result_err result ≡ field_rule combination.now }
{
    if combination.configuration == 0 {
        Err(CombinationRule::ConfigurationRange)
    } else if !(1..=MAXIMUM_CLASS).contains(&combination.class) {
        Err(CombinationRule::ClassRange)
    } else if Group::try_from(combination.group).is_err() {
        Err(CombinationRule::GroupRange)
    } else if !is_day(combination.first) {
        Err(CombinationRule::FirstDayRange)
    } else if !is_day(combination.last) {
        Err(CombinationRule::LastDayRange)
    } else if combination.default.unsigned_abs() > MAXIMUM_DEFAULT {
        Err(CombinationRule::DefaultRange)
    } else if combination.first > combination.last {
        Err(CombinationRule::DayOrder)
    } else {
        Ok(())
    }
}

fn follows(before: Option<Combination>, combination: &Combination) -> bool
    ensures { result ≡ follows before combination.now }
{
    before.is_none_or(|last| last.key() < combination.key())
}

fn check_combination(
    configurations: &Ascending<'_, Configuration<'_>>,
    before: Option<Combination>,
    combination: &Combination,
) -> Result<(), CombinationRule>
    ensures { result_err result ≡ combination_rule (ids_of (map listed configurations.now.entries.now)) before combination.now }
{
    check_fields(combination)?;
    if !is_listed(configurations, combination.configuration) {
        Err(CombinationRule::Listing)
    } else if !follows(before, combination) {
        Err(CombinationRule::Order)
    } else {
        Ok(())
    }
}

pub(crate) fn check_combinations(
    configurations: &Ascending<'_, Configuration<'_>>,
    combinations: &[Combination],
) -> Result<(), EditionFault>
    ensures { result_err result ≡ combination_fault (combinations_broken (ids_of (map listed configurations.now.entries.now)) combinations.now) }
{
    check_each(combinations, |before, combination| {
        check_combination(configurations, before, &combination)
    })
    .map_err(|(rule, place)| EditionFault::Combination(rule, place))
}
