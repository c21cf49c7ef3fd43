// The answer to one question, kind by kind.
ghost use Rattle.std.specs.Prelude.{◌≡◌, ◌+◌, ◌≤◌, ◌<◌, ltb, Ok, MatchResult};
ghost use Rattle.std.proofs.Math.Option.{some};
ghost use Rattle.format.specs.Lists.{bit, count_in, numbered};
ghost use Rattle.format.specs.Trits.{Selected};
ghost use Rattle.format.specs.Image.{node_count, root_count};
ghost use Rattle.format.specs.Proper.{trits_of, shadows_of};
ghost use Rattle.format.specs.Edges.{edge_at, use_edges};
ghost use Rattle.format.specs.Question.{plain, says, operand_or33, user_or33, trit_answer, rank_answer, select_answer, operand_count, operand_answer, use_count, use_answer, answer, Beyond};
ghost use Rattle.format.specs.Answers.{sort_number, answer_numbers};
ghost use Rattle.format.specs.declared.Refusal.TheVariants.{FirstOutside};
ghost use Rattle.asking.specs.Nodes.{NodeIn, EdgePlace};

use crate::index::{find_group, shadow, shadow_place};
use crate::kind::Kind;
use format::{Answer, Neighbour, Refusal, Sort};
use trits::Ranks;
use trits::image::Image;

// A plain value.
fn value(x: usize) -> Answer
    requires { x ≤ 125536 }
    ensures { answer_numbers (Ok result) ≡ plain x }
{
    Answer::Value(x as u32)
}

// A node, and the sort of its edge.
fn listed(node: usize, sort: Sort) -> Answer
    requires { node ≤ 125536 }
    ensures { answer_numbers (Ok result) ≡ says 0 node (sort_number sort) }
{
    Answer::Listed(Neighbour {
        node: node as u32,
        sort,
    })
}

// The place of the `t` number `j`, where there is one.
fn place(image: &Image, t: usize, j: usize) -> usize
    requires { (t < 3) × (0 < j) × (j ≤ count_in t (trits_of image.now.bytes.now)) }
    ensures { Selected t (trits_of image.now.bytes.now) j result }
{
    image.select(t, j).unwrap()
}

// ---- kinds 0 to 2

// Kind 0: the trit at place `a`.
fn trit(image: &Image, a: usize, b: usize) -> Result<Answer, Refusal>
    ensures { answer_numbers result ≡ trit_answer (trits_of image.now.bytes.now) a b }
{
    if image.lay.trits <= a {
        return Err(Refusal::FirstOutside);
    }
    if b != 0 {
        return Err(Refusal::SecondOutside);
    }
    Ok(value(image.trit(a)))
}

// Kind 1: the rank of trit `a` before place `b`.
fn ranked(image: &Image, a: usize, b: usize) -> Result<Answer, Refusal>
    ensures { answer_numbers result ≡ rank_answer (trits_of image.now.bytes.now) a b }
{
    if 2 < a {
        return Err(Refusal::FirstOutside);
    }
    if image.lay.trits < b {
        return Err(Refusal::SecondOutside);
    }
    Ok(value(image.rank(a, b)))
}

// Kind 2: the place of trit `a` number `b`.
fn selected(image: &Image, a: usize, b: usize) -> Result<Answer, Refusal>
    ensures { answer_numbers result ≡ select_answer (trits_of image.now.bytes.now) a b }
{
    if 2 < a {
        return Err(Refusal::FirstOutside);
    }
    let Some(p) = image.select(a, b) else {
        return Err(Refusal::SecondOutside);
    };
    Ok(value(p))
}

// ---- kinds 3 to 6, of a node

// A node of a proper image, by its level number.
#[derive(Clone, Copy)]
struct Node<'a> {
    image: &'a Image<'a>,
    number: usize,
    ghost is_node: { NodeIn image.now.bytes.now image.now.lay number },
}

impl<'a> Node<'a> {
    // Node `a`, where there is one.
    fn find(image: &'a Image<'a>, a: usize) -> Result<Node<'a>, Refusal>
        ensures { MatchResult result (λ n. (n.image.now.bytes.now ≡ image.now.bytes.now) × (n.number ≡ a))
            (λ f. (f ≡ FirstOutside) × Beyond (node_count (trits_of image.now.bytes.now)) a) }
    {
        if !(1..=image.lay.nodes).contains(&a) {
            return Err(Refusal::FirstOutside);
        }
        Ok(Node { image, number: a })
    }
}

impl Node<'_> {
    // Kind 3: the operands stand between the zero with the node's number and the next.
    fn operands(&self, b: usize) -> Result<Answer, Refusal>
        ensures { answer_numbers result ≡ operand_count (trits_of self.now.image.now.bytes.now) (shadows_of self.now.image.now.bytes.now) self.now.number b }
    {
        if b != 0 {
            return Err(Refusal::SecondOutside);
        }
        let first = place(self.image, 0, self.number);
        let next = place(self.image, 0, self.number + 1);
        Ok(value(next - first - 1))
    }

    // Kind 4: operand `b` stands `b` places after the zero with the node's number, where no other zero stands up to it.
    fn operand(&self, b: usize) -> Result<Answer, Refusal>
        ensures { answer_numbers result ≡ operand_answer (trits_of self.now.image.now.bytes.now) (shadows_of self.now.image.now.bytes.now) self.now.number b }
    {
        if b == 0 {
            return Err(Refusal::SecondOutside);
        }
        let image = self.image;
        let zero = place(image, 0, self.number);
        if image.lay.trits - zero <= b {
            return Err(Refusal::SecondOutside);
        }
        let p = zero + b;
        let t = image.trit(p);
        if t == 0 {
            return Err(Refusal::SecondOutside);
        }
        let before = image.rank_both(p);
        if before.zeros != self.number {
            return Err(Refusal::SecondOutside);
        }
        Ok(edge(image, p, before, t))
    }

    // Kind 5: the entries of the node's group, and its real use where it is no root.
    fn uses(&self, b: usize) -> Result<Answer, Refusal>
        ensures { answer_numbers result ≡ use_count (trits_of self.now.image.now.bytes.now) (shadows_of self.now.image.now.bytes.now) self.now.number b }
    {
        if b != 0 {
            return Err(Refusal::SecondOutside);
        }
        let group = find_group(self.image, self.number - 1);
        let shadows = group.next - group.first;
        if self.image.lay.roots < self.number {
            return Ok(value(shadows + 1));
        }
        Ok(value(shadows))
    }

    // The user of shadow use `j` of the node, counted from 1.
    fn shadow_user(&self, j: usize) -> Result<Answer, Refusal>
        requires { 1 ≤ j }
        ensures { answer_numbers result ≡ user_or33 (numbered (use_edges (trits_of self.now.image.now.bytes.now) (shadows_of self.now.image.now.bytes.now) self.now.number)
            (bit (ltb (root_count (trits_of self.now.image.now.bytes.now)) self.now.number) + j)) }
    {
        let group = find_group(self.image, self.number - 1);
        if group.next - group.first < j {
            return Err(Refusal::SecondOutside);
        }
        let p = shadow_place(self.image, group.first + (j - 1));
        Ok(listed(self.image.rank(0, p), Sort::Shadow))
    }

    // Kind 6: the real use comes first, where the node is no root.
    fn user(&self, b: usize) -> Result<Answer, Refusal>
        ensures { answer_numbers result ≡ use_answer (trits_of self.now.image.now.bytes.now) (shadows_of self.now.image.now.bytes.now) self.now.number b }
    {
        if b == 0 {
            return Err(Refusal::SecondOutside);
        }
        if self.number <= self.image.lay.roots {
            return self.shadow_user(b);
        }
        if b != 1 {
            return self.shadow_user(b - 1);
        }
        let p = place(self.image, 1, self.number);
        Ok(listed(self.image.rank(0, p), Sort::Real))
    }
}

// The edge at place `p`, where a 1 or a 2 stands: the next node, or the next entry of section 2.
fn edge(image: &Image, p: usize, before: Ranks, t: usize) -> Answer
    requires { EdgePlace (trits_of image.now.bytes.now) p before t }
    ensures { answer_numbers (Ok result) ≡ operand_or33 (some (edge_at (trits_of image.now.bytes.now) (shadows_of image.now.bytes.now) p)) }
{
    if t == 1 {
        return listed(before.ones + 1, Sort::Real);
    }
    let twos = p - before.zeros - before.ones;
    listed(shadow(image, twos), Sort::Shadow)
}

// Answers one question about a proper image. The kind comes as the number in the question's word: an unknown one is answered by 31.
pub fn answer(image: &Image, kind: u32, a: u32, b: u32) -> Result<Answer, Refusal>
    ensures { answer_numbers result ≡ answer (trits_of image.now.bytes.now) (shadows_of image.now.bytes.now) kind a b }
{
    let kind = Kind::try_from(kind)?;
    let first = a as usize;
    let second = b as usize;
    match kind {
        Kind::Trit => trit(image, first, second),
        Kind::Rank => ranked(image, first, second),
        Kind::Select => selected(image, first, second),
        _ => {
            let node = Node::find(image, first)?;
            match kind {
                Kind::OperandCount => node.operands(second),
                Kind::Operand => node.operand(second),
                Kind::UseCount => node.uses(second),
                _ => node.user(second),
            }
        }
    }
}
