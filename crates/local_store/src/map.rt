ghost use Rattle.std.specs.Prelude.{◌≡◌, ◌%◌, IfSome};
ghost use Rattle.local_store.specs.Map as specs;

/// How many words the communication memory of a core has.
pub const COMM_WORDS: u32 = 512;

/// How many words the memory has that all cores share.
pub const SHARED_WORDS: u32 = 4_096;

/// The address space of an access.
#[derive(Clone, Copy, Debug, PartialEq, Eq)]
pub enum Space {
    /// The scratchpad, the communication memory and the interface registers of the core.
    Local,
    /// The core's private memory and the shared memory.
    Main,
}

/// A word that an address can name. Words are numbered from 0 in each memory.
#[derive(Clone, Copy, Debug, PartialEq, Eq)]
pub enum Cell {
    /// A word of the scratchpad, below [`crate::SCRATCH_WORDS`].
    Scratch(u32),
    /// A word of the core's communication memory, below [`COMM_WORDS`].
    Comm(u32),
    /// A register of the network interface for a target core, 0 to 15, by its place in bytes: 0 is the
    /// source word, 4 the target word, 8 the count, and 12 the words not yet injected.
    Port { core: u32, register: u32 },
    /// A word of the core's private memory, below [`crate::PRIVATE_WORDS`].
    Private(u32),
    /// A word of the memory that all cores share, below [`SHARED_WORDS`].
    Shared(u32),
}

/// The cell at an address in bytes, or `None` exactly where nothing stands.
pub fn where_is(space: Space, address: u32) -> Option<Cell>
    requires { address % 4 ≡ 0 }
    ensures cell { result ≡ specs.cell_at space address }
    ensures within { IfSome result specs.IsInRange }
{
    match space {
        Space::Local => local_cell(address),
        Space::Main => main_cell(address),
    }
}

fn local_cell(address: u32) -> Option<Cell>
    requires { address % 4 ≡ 0 }
    ensures cell { result ≡ specs.cell_at Space.Local address }
    ensures within { IfSome result specs.IsInRange }
{
    match address {
        0..=0x1fff => Some(Cell::Scratch(address / 4)),
        0x1_0000..=0x1_07ff => Some(Cell::Comm((address - 0x1_0000) / 4)),
        0x2_0000..=0x2_00ff => {
            let place = address - 0x2_0000;
            Some(Cell::Port {
                core: place / 16,
                register: place % 16,
            })
        }
        _ => None,
    }
}

fn main_cell(address: u32) -> Option<Cell>
    requires { address % 4 ≡ 0 }
    ensures cell { result ≡ specs.cell_at Space.Main address }
    ensures within { IfSome result specs.IsInRange }
{
    match address {
        0..=0x3_ffff => Some(Cell::Private(address / 4)),
        0x100_0000..=0x100_3fff => Some(Cell::Shared((address - 0x100_0000) / 4)),
        _ => None,
    }
}

#[cfg(test)]
mod tests {
    use super::*;

    #[test]
    fn borders_of_the_map(rt: HostRuntime) {
        let local = [
            (0, Some(Cell::Scratch(0))),
            (0x1ffc, Some(Cell::Scratch(2047))),
            (0x2000, None),
            (0xfffc, None),
            (0x1_0000, Some(Cell::Comm(0))),
            (0x1_07fc, Some(Cell::Comm(511))),
            (0x1_0800, None),
            (0x1_fffc, None),
            (
                0x2_0000,
                Some(Cell::Port {
                    core: 0,
                    register: 0,
                }),
            ),
            (
                0x2_001c,
                Some(Cell::Port {
                    core: 1,
                    register: 12,
                }),
            ),
            (
                0x2_00fc,
                Some(Cell::Port {
                    core: 15,
                    register: 12,
                }),
            ),
            (0x2_0100, None),
            (0xffff_fffc, None),
        ];
        for (address, cell) in local {
            assert_eq!(rt;
                where_is(Space::Local, address / 4 * 4),
                cell,
                "at {address}"
            );
        }
        let main = [
            (0, Some(Cell::Private(0))),
            (0x3_fffc, Some(Cell::Private(65_535))),
            (0x4_0000, None),
            (0xff_fffc, None),
            (0x100_0000, Some(Cell::Shared(0))),
            (0x100_3ffc, Some(Cell::Shared(4095))),
            (0x100_4000, None),
            (0xffff_fffc, None),
        ];
        for (address, cell) in main {
            assert_eq!(rt;
                where_is(Space::Main, address / 4 * 4),
                cell,
                "at {address}"
            );
        }
    }
}
