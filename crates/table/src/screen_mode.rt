ghost use Rattle.table.specs.Modes.{Decodes};

// The modes of screens.
#[derive(Clone, Copy, PartialEq, Eq)]
pub enum Mode {
    Standard,
    SingleTop,
    SingleTask,
    SingleInstance,
}

// A byte that names no mode.
#[derive(Clone, Copy, PartialEq, Eq)]
pub struct UnknownMode(pub u8);

impl TryFrom<u8> for Mode {
    type Error = UnknownMode;

    ghost try_from_gives = { Decodes };

    fn try_from(code: u8) -> Result<Self, UnknownMode> {
        match code {
            0 => Ok(Mode::Standard),
            1 => Ok(Mode::SingleTop),
            2 => Ok(Mode::SingleTask),
            3 => Ok(Mode::SingleInstance),
            _ => Err(UnknownMode(code)),
        }
    }
}
