// How a call is to read, and how long a slice may be.
ghost use Rattle.std.specs.Prelude.{min, ◌≡◌};
ghost use Rattle.rules.specs.Bytes.{longest_slice};
ghost use Rattle.rules.specs.Walk.{of_type, blob_limit};
ghost use Rattle.rules.specs.Reading.{settings_ok, limits, defaults};

// The most bytes of a slice that a call reads; of a slice to be written no more count.
pub const LONGEST: usize = 4294967295;

// How many bytes count of a slice to be written that has this length: what `room` (Reading) says of the slice.
pub fn room_in(len: usize) -> u64
    ensures { result ≡ min len longest_slice }
{
    if LONGEST < len {
        return LONGEST as u64;
    }
    len as u64
}

// Which of two blob limits is a wire type's. Whoever tests a blob's length asks here.
#[tactic(auto, unfolding(crate::specs::Walk::of_type, crate::specs::Wire::code_of, crate::specs::Choice::pick))]
pub fn limit_of_type(code: u8, max_string32_bytes: u64, max_yson32_bytes: u64) -> u64
    ensures { result ≡ of_type code max_string32_bytes max_yson32_bytes }
{
    if code == 14 {
        return max_yson32_bytes;
    }
    max_string32_bytes
}

// How a call is to read: what each node costs, how long a string32 and a yson32 may be, and how dear a row.
#[derive(Clone, Copy)]
pub struct Settings {
    pub node_charge: u64,
    pub max_string32_bytes: u64,
    pub max_yson32_bytes: u64,
    pub max_row_bytes: u64,
}

impl Settings {
    // What the original's decoded value takes, with the compiler that it was measured with.
    pub const DEFAULT_NODE_CHARGE: u64 = 48;
    // The largest blob, of either type: no length field of an untrusted stream asks for more.
    pub const DEFAULT_MAX_BLOB_BYTES: u64 = 134217728;
    // The largest row. Bounding blobs does not bound a row: one byte of a repeated list can stand for a node.
    pub const DEFAULT_MAX_ROW_BYTES: u64 = 268435456;

    // The largest that the charge and each limit may be.
    pub const MAX_NODE_CHARGE: u64 = 4096;

    pub const MAX_LIMIT: u64 = 4294967295;

    // The defaults.
    #[tactic(auto, unfolding(crate::specs::Reading::defaults))]
    pub fn new() -> Self
        ensures { result ≡ defaults }
    {
        Self {
            node_charge: Self::DEFAULT_NODE_CHARGE,
            max_string32_bytes: Self::DEFAULT_MAX_BLOB_BYTES,
            max_yson32_bytes: Self::DEFAULT_MAX_BLOB_BYTES,
            max_row_bytes: Self::DEFAULT_MAX_ROW_BYTES,
        }
    }

    // Whether a call may be made with them.
    #[tactic(auto, unfolding(crate::specs::Reading::settings_ok))]
    pub fn within_bounds(self) -> bool
        ensures { result ≡ settings_ok self }
    {
        let charge = self.node_charge;
        let string32 = self.max_string32_bytes;
        let yson32 = self.max_yson32_bytes;
        let row = self.max_row_bytes;
        if charge < 1 {
            return false;
        }
        if Self::MAX_NODE_CHARGE < charge {
            return false;
        }
        if Self::MAX_LIMIT < string32 {
            return false;
        }
        if Self::MAX_LIMIT < yson32 {
            return false;
        }
        row <= Self::MAX_LIMIT
    }

    // The longest blob of a wire type.
    #[tactic(auto, unfolding(crate::specs::Walk::blob_limit, crate::specs::Reading::limits))]
    pub fn blob_limit(self, code: u8) -> u64
        ensures { result ≡ blob_limit (limits self) code }
    {
        limit_of_type(code, self.max_string32_bytes, self.max_yson32_bytes)
    }
}
