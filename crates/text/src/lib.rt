// The text reader (document 01, "Text", and document 02, A.1 and A.4).
#![tactic(auto)]

ghost use Rattle.std.specs.Prelude.{◌≡◌, cond, ◌+◌, ◌*◌, ◌^◌, ◌≤◌, ◌<◌, eqb, length, take, [], ◌∷◌};
ghost use Rattle.packet.specs.Refusals.{refused_at, first_refused};
ghost use Rattle.policy.specs.NodesOfTree.{node_entry, tree_size};
ghost use Rattle.fields.specs.Inner.{kept_names};
ghost use Rattle.fields.specs.Names.{names_in};
ghost use Rattle.fields.specs.Tables.{lent_table};
ghost use Rattle.grammar.specs.declared.Token.TheVariants.{Opening, Exclamation};
ghost use Rattle.grammar.specs.Tokens.{tokens};
ghost use Rattle.grammar.specs.InnerKinds.{constant_kind, comparison_kind};
ghost use Rattle.grammar.specs.Answer.{bad_place, open_after, deep_place, stop_place, too_many, answer_after, outcome, text_tree, answer_to, ReadWith, TextRead};
ghost use Rattle.text.specs.Inner;
ghost use Rattle.text.specs.Inner.{lists, SameLists, HasRoom, ReaderReady, TokenRead, MarkRead, NegationsRead, LeafRead, NodeJoined, Negated, put_entry, ClosingRead, Done, EndRead, WholeRead};

use fields::Tables;
use grammar::{Answer, Comparison, Constant, Token};
use packet::{Tested, unsided};
use tokens::Placed;

// A text with the names that it may use, at most eight, in cells, and how many of its nodes are written.
#[derive(Clone, Copy)]
struct Reader<'a> {
    names: &'a [u8],
    text: &'a [u8],
    room: usize,
    ghost few_names: { length names.now ≤ 128 },
    ghost small_room: { room ≤ 512 },
}

// The lists that a reader writes.
#[derive(Drop)]
struct Lists<'a> {
    kind: &'a mut [u8],
    first: &'a mut [u16],
    second: &'a mut [u16],
}

// Where a reader stands: the byte up to which it has read, and the nodes so far.
#[derive(Clone, Copy)]
struct Step {
    at: usize,
    nodes: usize,
}

// A run of !: how many there are, and the token that follows.
#[derive(Clone, Copy)]
struct NegationRun {
    count: usize,
    token: Placed,
}

// An item that is no sum in parentheses: the byte after it, and its node.
#[derive(Clone, Copy)]
struct Leaf {
    at: usize,
    kind: u8,
    first: u16,
    second: u16,
}

// The kind of the node that a constant is.
#[tactic(auto, unfolding(grammar::specs::InnerKinds::constant_kind))]
fn constant_kind(c: Constant) -> u8
    ensures { result ≡ constant_kind c }
{
    match c {
        Constant::Drop => 0,
        Constant::Id => 1,
        Constant::Dup => 5,
    }
}

// The kind of the node that a comparison makes.
#[tactic(auto, unfolding(grammar::specs::InnerKinds::comparison_kind))]
fn comparison_kind(c: Comparison) -> u8
    ensures { result ≡ comparison_kind c }
{
    match c {
        Comparison::Equal => 2,
        Comparison::Different => 3,
        Comparison::Assigned => 4,
    }
}

impl Reader<'_> {
    // The token at a byte; where there is none, the reading stops at the end. (Inlined, as `token_from` is.)
    #[inline(always)]
    fn token(&self, at: usize) -> Result<Placed, usize>
        requires { at ≤ length self.now.text.now }
        ensures { TokenRead (names_in self.now.names.now) self.now.text.now at result }
    {
        tokens::token_from(self.names, self.text, at).ok_or(self.text.len())
    }

    // The byte after the mark, if it is the token at a byte. (Inlined, as `token_from` is.)
    #[inline(always)]
    fn after(&self, mark: Token, at: usize) -> Option<usize>
        requires { at ≤ length self.now.text.now }
        ensures { MarkRead (names_in self.now.names.now) self.now.text.now mark at result }
    {
        let t = tokens::token_from(self.names, self.text, at)?;
        if t.token != mark {
            return None;
        }
        Some(t.next)
    }

    // The run of ! from a byte on, empty where there is none. A loop: a run may be as long as the text.
    fn negations(&self, at: usize) -> Result<NegationRun, usize>
        requires { at ≤ length self.now.text.now }
        ensures { NegationsRead (names_in self.now.names.now) self.now.text.now at result }
    {
        let mut count = 0;
        let mut token = self.token(at)?;
        while token.token == Token::Exclamation {
            count += 1;
            token = self.token(token.next)?;
        }
        Ok(NegationRun { count, token })
    }

    // The item that begins with a token, where no parenthesis opens and no ! stands.
    fn leaf(&self, t: Placed) -> Result<Leaf, usize>
        requires { (t.next ≤ length self.now.text.now) × (t.token ≡ Opening → ⊥) × (t.token ≡ Exclamation → ⊥) }
        ensures { LeafRead (names_in self.now.names.now) self.now.text.now t result }
    {
        match t.token {
            Token::Keyword(c) => Ok(Leaf {
                at: t.next,
                kind: constant_kind(c),
                first: 0,
                second: 0,
            }),
            Token::Field(first) => {
                let operator = self.token(t.next)?;
                let Token::Operator(c) = operator.token else {
                    return Err(operator.start);
                };
                let value = self.token(operator.next)?;
                let Token::Number(second) = value.token else {
                    return Err(value.start);
                };
                Ok(Leaf {
                    at: value.next,
                    kind: comparison_kind(c),
                    first,
                    second,
                })
            }
            _ => Err(t.start),
        }
    }

    // Writes node n where there is room for it.
    fn put(&self, n: usize, kind: u8, first: u16, second: u16, out: &mut Lists)
        requires { HasRoom self.now.room (lists out.old) }
        ensures lent { SameLists out.old out.new }
        ensures nodes { lists out.new ≡ put_entry self.now.room n (node_entry kind first second) (lists out.old) }
    {
        if n < self.room {
            out.kind[n] = kind;
            out.first[n] = first;
            out.second[n] = second;
        }
    }

    // Writes node n, whose entries are numbers of nodes before it: where there is room for it, these are below 512.
    fn put_parent(&self, n: usize, kind: u8, first: usize, second: usize, out: &mut Lists)
        requires { HasRoom self.now.room (lists out.old) × (first ≤ n) × (second ≤ n) }
        ensures lent { SameLists out.old out.new }
        ensures nodes { lists out.new ≡ put_entry self.now.room n (node_entry kind first second) (lists out.old) }
    {
        let first = u16::try_from(first).unwrap_or(0);
        let second = u16::try_from(second).unwrap_or(0);
        self.put(n, kind, first, second, out);
    }

    // The node that joins what r has read to the policy whose node is `left`.
    fn join(&self, kind: u8, left: usize, r: Step, out: &mut Lists) -> Step
        requires { HasRoom self.now.room (lists out.old) × (left < r.nodes) × (r.nodes < 2 ^ 63) }
        ensures lent { SameLists out.old out.new }
        ensures nodes { NodeJoined kind left self.now.room r (lists out.old) result (lists out.new) }
    {
        self.put_parent(r.nodes, kind, left, r.nodes - 1, out);
        Step {
            at: r.at,
            nodes: r.nodes + 1,
        }
    }

    // The nodes that negate what r has read, so many times: each has the one before it as its child.
    fn negate(&self, count: usize, r: Step, out: &mut Lists) -> Step
        requires { HasRoom self.now.room (lists out.old) × (0 < r.nodes) × (r.nodes + count < 2 ^ 63) }
        ensures lent { SameLists out.old out.new }
        ensures nodes { Negated count self.now.room r (lists out.old) result (lists out.new) }
    {
        let end = r.nodes + count;
        for n in r.nodes..end {
            self.put_parent(n, 9, n - 1, 0, out);
        }
        Step {
            at: r.at,
            nodes: end,
        }
    }

    // The closing parenthesis after what s has read.
    fn closed(&self, s: Step) -> Result<Step, usize>
        requires { s.at ≤ length self.now.text.now }
        ensures { ClosingRead (names_in self.now.names.now) self.now.text.now s result }
    {
        let t = self.token(s.at)?;
        if t.token != Token::Closing {
            return Err(t.start);
        }
        Ok(Step {
            at: t.next,
            nodes: s.nodes,
        })
    }

    // An item: any number of !, then drop, id, dup, a field with a comparison and a number, or a sum in parentheses. Each ! negates it.
    #[cycle(item_sequence_starred_sum)]
    fn item(&self, at: usize, nodes: usize, out: &mut Lists) -> Result<Step, usize>
        requires { ReaderReady self.now.text.now at nodes self.now.room (lists out.old) }
        ensures lent { SameLists out.old out.new }
        ensures nodes { Done (names_in self.now.names.now) self.now.text.now Inner.item at nodes self.now.room (lists out.old) result (lists out.new) }
    {
        let run = self.negations(at)?;
        if run.token.token == Token::Opening {
            let s = self.sum(run.token.next, nodes, out)?;
            let r = self.closed(s)?;
            return Ok(self.negate(run.count, r, out));
        }
        let leaf = self.leaf(run.token)?;
        self.put(nodes, leaf.kind, leaf.first, leaf.second, out);
        let r = Step {
            at: leaf.at,
            nodes: nodes + 1,
        };
        Ok(self.negate(run.count, r, out))
    }

    // A starred item: an item and any number of *.
    #[cycle(item_sequence_starred_sum)]
    fn starred(&self, at: usize, nodes: usize, out: &mut Lists) -> Result<Step, usize>
        requires { ReaderReady self.now.text.now at nodes self.now.room (lists out.old) }
        ensures lent { SameLists out.old out.new }
        ensures nodes { Done (names_in self.now.names.now) self.now.text.now Inner.starred at nodes self.now.room (lists out.old) result (lists out.new) }
    {
        let mut s = self.item(at, nodes, out)?;
        while let Some(next) = self.after(Token::Asterisk, s.at) {
            self.put_parent(s.nodes, 8, s.nodes - 1, 0, out);
            s = Step {
                at: next,
                nodes: s.nodes + 1,
            };
        }
        Ok(s)
    }

    // A sequence: starred items joined by ;
    #[cycle(item_sequence_starred_sum)]
    fn sequence(&self, at: usize, nodes: usize, out: &mut Lists) -> Result<Step, usize>
        requires { ReaderReady self.now.text.now at nodes self.now.room (lists out.old) }
        ensures lent { SameLists out.old out.new }
        ensures nodes { Done (names_in self.now.names.now) self.now.text.now Inner.sequence at nodes self.now.room (lists out.old) result (lists out.new) }
    {
        let mut s = self.starred(at, nodes, out)?;
        while let Some(next) = self.after(Token::Semicolon, s.at) {
            let r = self.starred(next, s.nodes, out)?;
            s = self.join(7, s.nodes - 1, r, out);
        }
        Ok(s)
    }

    // A sum: sequences joined by +
    #[cycle(item_sequence_starred_sum)]
    fn sum(&self, at: usize, nodes: usize, out: &mut Lists) -> Result<Step, usize>
        requires { ReaderReady self.now.text.now at nodes self.now.room (lists out.old) }
        ensures lent { SameLists out.old out.new }
        ensures nodes { Done (names_in self.now.names.now) self.now.text.now Inner.sum at nodes self.now.room (lists out.old) result (lists out.new) }
    {
        let mut s = self.sequence(at, nodes, out)?;
        while let Some(next) = self.after(Token::Plus, s.at) {
            let r = self.sequence(next, s.nodes, out)?;
            s = self.join(6, s.nodes - 1, r, out);
        }
        Ok(s)
    }

    // The end of the text after what s has read: the nodes of the text.
    fn ended(&self, s: Step) -> Result<usize, usize>
        requires { s.at ≤ length self.now.text.now }
        ensures { EndRead (names_in self.now.names.now) self.now.text.now s result }
    {
        match tokens::token_from(self.names, self.text, s.at) {
            Some(t) => Err(t.start),
            None => Ok(s.nodes),
        }
    }

    // The nodes of the whole text, by a reader that writes none. The test of cause 15 must have passed: at most 64 open parentheses bound the
    // depth of the recursion.
    fn count(&self) -> Result<usize, usize>
        requires { self.now.room ≡ 0 }
        ensures { WholeRead (names_in self.now.names.now) self.now.text.now result }
    {
        let mut kind = [0u8; 1];
        let mut first = [0u16; 1];
        let mut second = [0u16; 1];
        let mut out = Lists {
            kind: &mut kind,
            first: &mut first,
            second: &mut second,
        };
        let s = self.sum(0, 0, &mut out)?;
        self.ended(s)
    }

    // Cause 14.
    fn token_stage(&self) -> Tested
        ensures { result ≡ refused_at 14 0 (bad_place (tokens (names_in self.now.names.now) self.now.text.now)) }
    {
        let mut at = 0;
        while let Some(t) = tokens::token_from(self.names, self.text, at) {
            if t.token == Token::Bad {
                return Err(unsided(14, t.start));
            }
            at = t.next;
        }
        Ok(())
    }

    // Cause 15.
    fn depth_stage(&self) -> Tested
        ensures { result ≡ refused_at 15 0 (deep_place 0 (tokens (names_in self.now.names.now) self.now.text.now)) }
    {
        let mut at = 0;
        let mut n = 0;
        while let Some(t) = tokens::token_from(self.names, self.text, at) {
            n = open_after(n, t.token);
            if n > 64 {
                return Err(unsided(15, t.start));
            }
            at = t.next;
        }
        Ok(())
    }

    // Causes 16 and 17, where there is room for so many nodes.
    fn size_stage(&self, room: usize) -> Answer
        requires { self.now.room ≡ 0 }
        ensures { result ≡ answer_after (first_refused (refused_at 16 0 (stop_place (outcome (names_in self.now.names.now) self.now.text.now))
            ∷ refused_at 17 0 (too_many room (tree_size (text_tree (names_in self.now.names.now) self.now.text.now))) ∷ [])) (tree_size (text_tree (names_in self.now.names.now) self.now.text.now)) }
    {
        match self.count() {
            Ok(n) => {
                if n > room.min(512) {
                    return Err(unsided(17, n));
                }
                Ok(n)
            }
            Err(place) => Err(unsided(16, place)),
        }
    }

    // All causes, in their order.
    fn test(&self, room: usize) -> Answer
        requires { self.now.room ≡ 0 }
        ensures { result ≡ answer_to (names_in self.now.names.now) self.now.text.now room }
    {
        self.token_stage()?;
        self.depth_stage()?;
        self.size_stage(room)
    }
}

// How many parentheses are open after a token.
#[tactic(auto, unfolding(grammar::specs::Answer::open_after))]
fn open_after(n: usize, token: Token) -> usize
    requires { n ≤ 64 }
    ensures { result ≡ open_after n token }
{
    match token {
        Token::Opening => n + 1,
        Token::Closing => n.saturating_sub(1),
        _ => n,
    }
}

// Inner: reads a text over at most eight names into three lent lists of any lengths, and answers the number of its nodes. On a refusal the
// lists are as found.
pub fn read_with(
    names: &[u8],
    text: &[u8],
    kind: &mut [u8],
    first: &mut [u16],
    second: &mut [u16],
) -> Answer
    requires { length names.now ≤ 128 }
    ensures { ReadWith (names_in names.now) text.now kind.old first.old second.old result
        kind.new first.new second.new }
{
    let room = kind.len().min(first.len().min(second.len()));
    let counting = Reader {
        names,
        text,
        room: 0,
    };
    let n = counting.test(room)?;
    let writing = Reader {
        names,
        text,
        room: n,
    };
    let mut out = Lists {
        kind,
        first,
        second,
    };
    // it reads what it has counted
    let _ = writing.sum(0, 0, &mut out);
    Ok(n)
}

// Inner: of the joint names, so many in cells, those that a text over the table may use: the others' cells are emptied.
pub fn side_names(joint: [u8; 128], count: usize, table: &[u8]) -> [u8; 128]
    requires { (count ≤ 8) × (128 ≡ length joint) }
    ensures { (names_in (take (count * 16) result) ≡ kept_names (names_in table.now) (names_in (take (count * 16) joint))) × (128 ≡ length result) }
{
    let mut names = joint;
    fields::keep_named(&mut names[..count * 16], table);
    names
}

// The same for the text of a side: 2 is right, any other number left.
fn names_on(side: u8, joint: [u8; 128], count: usize, tables: Tables) -> [u8; 128]
    requires { (count ≤ 8) × (128 ≡ length joint) }
    ensures { (names_in (take (count * 16) result) ≡ kept_names (names_in (cond (eqb side 2) tables.entry.right.names.now tables.entry.left.names.now)) (names_in (take (count * 16) joint)))
        × (128 ≡ length result) }
{
    if side == 2 {
        return side_names(joint, count, tables.right.names);
    }
    side_names(joint, count, tables.left.names)
}

// Reads a text of one side over two tables of fields into three lent lists of any lengths, and answers the number of its nodes. On a refusal
// the lists are as found.
pub fn read(
    tables: Tables,
    side: u8,
    text: &[u8],
    kind: &mut [u8],
    first: &mut [u16],
    second: &mut [u16],
) -> Answer
    ensures { TextRead (lent_table tables.entry.left) (lent_table tables.entry.right) side
        text.now kind.old first.old second.old result kind.new first.new second.new }
{
    let joint = fields::join(tables)?;
    let names = names_on(side, joint.names, joint.count, tables);
    read_with(&names[..joint.count * 16], text, kind, first, second)
}
