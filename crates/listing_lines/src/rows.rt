// The lines of a row, from a value table that decode has left: each node's own line, and then those of its children.
ghost use Rattle.std.specs.Prelude.{◌≡◌, ◌≤◌, length};
ghost use Rattle.rules.specs.Listing.{row_lines};
ghost use Rattle.judge.specs.Table.{whole_value};
ghost use Rattle.lines.specs.Puts.{TextPut};
ghost use Rattle.listing_lines.specs.Rows.{Listable, Listed, root_value, RowListable};

use record::value_record::value_record_at;
use texts::put_line;
use view::children_of;
use write::put::WritePos;

// A node of a row: the row's number, the node's record, and the payload bytes before it.
#[derive(Clone, Copy)]
pub struct RowNode {
    pub row: u64,
    pub at: usize,
    pub from: usize,
}

// A node and all below it, from a position of the text on. What a record says of its size is a count of children or a length of payload.
fn list_value(
    records: &[u8],
    store: &[u8],
    depth: usize,
    node: RowNode,
    to: usize,
    text: &mut [u8],
) -> WritePos
    requires { Listable records.now store.now depth node.at node.from to (length text.old) }
    ensures { Listed records.now store.now depth node to result text.old text.new }
{
    let own = value_record_at(records, node.at);
    let count = children_of(own);
    let mut q = WritePos {
        at: node.at + 1,
        from: node.from + (own.size - count) as usize,
        to: put_line(text, to, node.row, (65 - depth) as u64, own, store),
    };
    for _done in 0..count {
        let child = RowNode {
            row: node.row,
            at: q.at,
            from: q.from,
        };
        q = list_value(records, store, depth - 1, child, q.to, text);
    }
    q
}

// The lines of the row whose table begins both slices, from the start of the text on, and where they end. A line has at most 128 bytes,
// and two for each byte of payload.
pub fn list_row(records: &[u8], store: &[u8], row: u64, text: &mut [u8]) -> usize
    requires { RowListable records.now store.now (length text.old) }
    ensures text_put { TextPut text.old 0 (row_lines row
        (whole_value (root_value records.now store.now))) text.new result }
    ensures upper_bound { result ≤ 655360 }
{
    let root = RowNode {
        row,
        at: 0,
        from: 0,
    };
    let q = list_value(records, store, 64, root, 0, text);
    q.to
}
