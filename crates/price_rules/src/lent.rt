// What the contracts are priced from, besides the sheet. It is lent: copies cost more than the pricing.

ghost use Rattle.std.specs.Prelude.{◌≡◌, ◌<◌, ◌≤◌, get_or, replicate, set};
ghost use Rattle.trades.specs.laws.Trades.{AllSmall};
ghost use Rattle.price_rules.specs.Closing.{base_of};
ghost use Rattle.price_rules.specs.laws.Sizes.{Bounded};

use market::Leg;
use trades::Total;

// A sheet's header, and the totals of its trades.
#[derive(Clone, Copy)]
pub struct Book {
    pub metal: u8,
    pub marks: u16,
    pub third: u8,
    pub totals: [Total; 12],
    pub ghost small: { AllSmall 1048576 totals },
}

// The closes established so far, in pricing order; 0 for a contract that has none.
#[derive(Clone, Copy)]
pub struct Closes {
    pub cents: [u32; 6],
    pub ghost bounded: { Bounded cents },
}

// The same, lent to a function: closes of as many contracts as there are.
#[derive(Clone, Copy)]
pub struct LentCloses<'a> {
    pub cents: &'a [u32],
    pub ghost bounded: { Bounded cents.now },
}

impl Closes {
    pub(crate) fn none() -> Self
        ensures { result.cents ≡ replicate 6 0 }
    {
        Closes { cents: [0; 6] }
    }

    pub fn lent(&self) -> LentCloses<'_>
        ensures { result.cents.now ≡ self.now.cents }
    {
        LentCloses { cents: &self.cents }
    }

    // With a contract's close.
    pub(crate) fn establish(self, contract: usize, close: u32) -> Self
        requires { (contract < 6) × (close ≤ 99999999) }
        ensures { result.cents ≡ set self.cents contract close }
    {
        let mut cents = self.cents;
        cents[contract] = close;
        Closes { cents }
    }
}

impl<'a> LentCloses<'a> {
    // A contract's close.
    fn of(&self, contract: usize) -> u32
        ensures { result ≡ get_or self.now.cents.now contract 0 }
    {
        self.cents.get(contract).copied().unwrap_or(0)
    }

    // The other leg's close; an outright has none.
    pub(crate) fn under(&self, leg: Leg) -> u32
        ensures { result ≡ base_of self.now.cents.now leg }
    {
        match leg {
            Leg::Outright => 0,
            Leg::Over(c) | Leg::Under(c) => self.of(c),
        }
    }
}
