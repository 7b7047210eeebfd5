// The search on two texts (document 01, "Causes, in the order tested": a call on two texts; document 02, A.4).
#![tactic(auto)]

ghost use Rattle.std.specs.Prelude.{◌*◌, ◌≡◌, ◌≤◌, length, take};
ghost use Rattle.fields.specs.Names.{names_in};
ghost use Rattle.fields.specs.Inner.{kept_names};
ghost use Rattle.fields.specs.Tables.{lent_table};
ghost use Rattle.policy.specs.AsLists.{lists_of};
ghost use Rattle.index.specs.Lent.{SameLists};
ghost use Rattle.search.specs.Call.{lent_in};
ghost use Rattle.search_texts.specs.Call.{few_nodes, held_nodes, TextRead, TextsRead, TextsSearched};

use fields::{FieldTable, JointFields, Tables};
use index::RowLists;
use packet::Refusal;
use policy::lent::PolicyLists;
use verdict::Verdict;

// The nodes of a text: the first `count` entries of each list.
#[derive(Clone, Copy)]
struct TextNodes {
    kind: [u8; 512],
    first: [u16; 512],
    second: [u16; 512],
    count: usize,
}

impl TextNodes {
    // The nodes as a policy.
    fn policy(&self) -> PolicyLists<'_>
        requires { few_nodes self.now }
        ensures { lists_of result ≡ held_nodes self.now }
    {
        PolicyLists {
            kind: &self.kind[..self.count],
            first: &self.first[..self.count],
            second: &self.second[..self.count],
        }
    }
}

// A text is read; of the joint names it may use those of its side's table.
fn read_text(joint: JointFields, table: FieldTable, text: &[u8]) -> Result<TextNodes, Refusal>
    requires { (joint.count ≤ 8) × (128 ≡ length joint.names) }
    ensures { TextRead (kept_names (names_in table.entry.names.now) (names_in (take (joint.count * 16) joint.names))) text.now result }
{
    let words = text::side_names(joint.names, joint.count, table.names);
    let names = &words[..joint.count * 16];
    let mut kind = [0; 512];
    let mut first = [0; 512];
    let mut second = [0; 512];
    let count = text::read_with(names, text, &mut kind, &mut first, &mut second)?;
    Ok(TextNodes {
        kind,
        first,
        second,
        count,
    })
}

// The tables are tested, then the left text is read, then the right one.
fn read_texts(tables: Tables, left: &[u8], right: &[u8]) -> Result<(TextNodes, TextNodes), Refusal>
    ensures { TextsRead (lent_table tables.entry.left) (lent_table tables.entry.right) left.now right.now result }
{
    let joint = fields::join(tables)?;
    let left_nodes = read_text(joint, tables.left, left)?;
    let right_nodes = read_text(joint, tables.right, right)?;
    Ok((left_nodes, right_nodes))
}

// Whether two texts have the same traces from every packet. The tables are tested here, what comes after the texts by the search on node
// lists. The row lists, the trace list and the work list are as for the search on node lists.
pub fn search(
    tables: Tables,
    left: &[u8],
    right: &[u8],
    rows: &mut RowLists,
    trace: &mut [u16],
    work: &mut [u32],
) -> Verdict
    ensures same_lists { SameLists rows.old rows.new }
    ensures searched { TextsSearched (lent_table tables.entry.left) (lent_table tables.entry.right) left.now right.now (lent_in rows.old trace.old work.old) result (lent_in rows.new trace.new work.new) }
{
    match read_texts(tables, left, right) {
        Err(r) => Verdict::Refused(r),
        Ok((l, r)) => search::search(tables, l.policy(), r.policy(), rows, trace, work),
    }
}
