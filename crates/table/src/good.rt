ghost use Rattle.std.specs.Prelude.{◌≡◌, ◌≤◌};
ghost use Rattle.model.specs.Refusals.{numbered, unless};
ghost use Rattle.model.specs.Table.{size_of, main_screen, most_screens, table_refusal};

use model::Refusal;
use std::marker::Model;

// A good table, one that its check does not refuse. A clause sees its bytes.
#[derive(Drop)]
pub struct Table<'a> {
    bytes: &'a [u8],
}

impl<'a> Model for Table<'a> {
    ghost use Rattle.std.specs.Prelude.{◌≡◌, ℕ, List};
    ghost use Rattle.model.specs.Table.{table_refusal};

    ghost Value = { List ℕ };

    ghost view = { λ t. t.bytes.now };

    ghost invariant = { λ t. table_refusal t.bytes.now ≡ 0 };
}

impl<'a> Table<'a> {
    // The table that has these bytes, or its refusal.
    pub fn checked(bytes: &'a [u8]) -> Result<Table<'a>, Refusal>
        ensures { numbered result ≡ unless (table_refusal bytes.now) bytes.now }
    {
        crate::check(bytes)?;
        Ok(Table { bytes })
    }

    // The table of bytes that were checked before.
    pub fn of(bytes: &'a [u8]) -> Table<'a>
        requires { table_refusal bytes.now ≡ 0 }
        ensures { result ≡ bytes.now }
    {
        Table { bytes }
    }

    // Its bytes, and that they are good.
    pub fn bytes(&self) -> &'a [u8]
        ensures bytes { result.now ≡ self.now }
        ensures good { table_refusal self.now ≡ 0 }
    {
        self.bytes
    }

    // The number of screens.
    pub fn size(&self) -> u8
        ensures size { result ≡ size_of self.now }
        ensures most { result ≤ most_screens }
    {
        crate::size(self.bytes)
    }

    // The main screen.
    pub fn main_screen(&self) -> u8
        ensures { result ≡ main_screen self.now }
    {
        crate::main_screen(self.bytes)
    }
}
