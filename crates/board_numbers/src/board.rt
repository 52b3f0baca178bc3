//! A board by the lines of its scenario: its domains in rising number, and the lanes between them.

ghost use Rattle.std.specs.Prelude.{◌≡◌};
ghost use Rattle.board_numbers.specs.Lanes.{numbers_of, line_of_domain, joins, size_between, buffers_between as buffers_of_lane};
ghost use Rattle.board_numbers.specs.Told.{IsToldByText};

use arrayvec::ArrayVec;
use board_model::{DomainLine, LinkLine, Scenario};
use mc_base::MAX_DOMAINS;

/// The numbers of the domains, which rise.
pub fn rising_numbers(scenario: &Scenario) -> ArrayVec<u8, 8>
    requires { IsToldByText scenario.now }
    ensures { result.items ≡ numbers_of scenario.now }
{
    let mut numbers = ArrayVec::new();
    for number in 0..MAX_DOMAINS {
        if line_of(scenario, number).is_some() {
            numbers.push(number);
        }
    }
    numbers
}

/// How many buffers the lane from one domain to another has, or `None` where there is no such lane.
pub fn buffers_between(scenario: &Scenario, from: u8, to: u8) -> Option<u32>
    ensures { result ≡ buffers_of_lane scenario.now from to }
{
    if from == to {
        return Some(line_of(scenario, from)?.pool);
    }
    size_between(scenario, from, to)
}

/// The line of the domain of this number, or `None` where the board has no such domain.
pub fn line_of(scenario: &Scenario, number: u8) -> Option<DomainLine>
    ensures { result ≡ line_of_domain scenario.now number }
{
    scenario
        .domains
        .as_slice()
        .iter()
        .copied()
        .find(|line| line.domain == number)
}

/// The size of the link between two domains, whichever of them is the driver, or `None` where they are not linked.
pub fn size_between(scenario: &Scenario, one: u8, two: u8) -> Option<u32>
    ensures { result ≡ size_between scenario.now one two }
{
    scenario
        .links
        .as_slice()
        .iter()
        .find(|link| joins(link, one, two))
        .map(|link| link.size)
}

/// Whether a link joins these two.
fn joins(link: &LinkLine, one: u8, two: u8) -> bool
    ensures { result ≡ joins one two link.now }
{
    (link.driver == one && link.device == two) || (link.device == one && link.driver == two)
}
