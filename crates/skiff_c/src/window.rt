// The call that reads a stream in windows.
ghost use Rattle.std.specs.Prelude.{◌≡◌};
ghost use Rattle.schema.specs.Slices.{slices};
ghost use Rattle.skiff.specs.Calls.{settings_of, run_window_given};

// All rows of a window, which begins where the rows so far end.
#[unsafe(no_mangle)]
pub extern "C" fn skiff2_run_window(
    node_charge: u64,
    max_string32_bytes: u64,
    max_yson32_bytes: u64,
    max_row_bytes: u64,
    table: &[u8],
    names: &[u8],
    references: &[u8],
    registry: &[u8],
    window: &[u8],
    rows: u64,
    bytes: u64,
    answer: &mut [u8],
) -> u32
    ensures { record { number = result; answer = answer.new }
        ≡ run_window_given (slices table.now names.now references.now registry.now)
        (settings_of node_charge max_string32_bytes max_yson32_bytes max_row_bytes) window.now rows bytes answer.old }
{
    skiff::window::skiff2_run_window(
        node_charge,
        max_string32_bytes,
        max_yson32_bytes,
        max_row_bytes,
        table,
        names,
        references,
        registry,
        window,
        rows,
        bytes,
        answer,
    )
}
