// The lines of a listing: the counts, then each node with its operands and users.
ghost use Rattle.std.specs.Prelude.{◌≡◌, ◌+◌, ◌++◌, map, eqb, ◌≤◌, ◌<◌};
ghost use Rattle.format.specs.Lists.{one_to, join};
ghost use Rattle.format.specs.Image.{node_count};
ghost use Rattle.format.specs.Proper.{trits_of, shadows_of};
ghost use Rattle.format.specs.Answers.{answer_numbers};
ghost use Rattle.format.specs.Listing.{node_line, count_line};
ghost use Rattle.asking.specs.Kinds.{kind_number};
ghost use Rattle.listing.specs.Wrote.{Room, Wrote};
ghost use Rattle.listing.specs.Neighbours.{neighbour_text, neighbours};

use crate::text::Text;
use asking::kind::Kind;
use asking::question::answer;
use format::{Answer, Refusal, Sort};
use trits::image::Image;

// The value of an answer: a count, or the number of a neighbour.
fn value(found: Result<Answer, Refusal>) -> u32
    ensures { result ≡ (answer_numbers found).value }
{
    match found {
        Ok(Answer::Value(v)) => v,
        Ok(Answer::Listed(neighbour)) => neighbour.node,
        Err(_) => 0,
    }
}

// Whether an answer is a neighbour by a shadow.
fn is_shadow(found: Result<Answer, Refusal>) -> bool
    ensures { result ≡ eqb (answer_numbers found).sort 2 }
{
    match found {
        Ok(Answer::Listed(neighbour)) => neighbour.sort == Sort::Shadow,
        _ => false,
    }
}

// Puts a neighbour after a space, with a star where it is a shadow.
fn put_neighbour(text: &mut Text, found: Result<Answer, Refusal>)
    requires { Room text.old.bytes.now text.old.end (neighbour_text (answer_numbers found)) }
    ensures wrote { Wrote text.old.bytes.now text.old.end (neighbour_text (answer_numbers found)) text.new.end text.new.bytes.now }
    ensures same { text.new.bytes.ghost_name ≡ text.old.bytes.ghost_name }
{
    text.put_field(b" ", value(found) as usize);
    if is_shadow(found) {
        text.put(b"*");
    }
}

// Puts a sign, and behind it the operands of node `i` or its users: one kind of question counts them, and the other gives each.
fn put_neighbours(text: &mut Text, sign: &[u8], image: &Image, count: Kind, each: Kind, i: u32)
    requires { Room text.old.bytes.now text.old.end (sign.now ++ neighbours image.now.bytes.now (kind_number count) (kind_number each) i) }
    ensures wrote { Wrote text.old.bytes.now text.old.end (sign.now ++ neighbours image.now.bytes.now (kind_number count) (kind_number each) i) text.new.end text.new.bytes.now }
    ensures same { text.new.bytes.ghost_name ≡ text.old.bytes.ghost_name }
{
    text.put(sign);
    let many = value(answer(image, u32::from(count), i, 0));
    for b in 1..=many {
        put_neighbour(text, answer(image, u32::from(each), i, b));
    }
}

// Puts the line of node `i`.
fn put_node(text: &mut Text, image: &Image, i: u32)
    requires { (1 ≤ i) × (i ≤ node_count (trits_of image.now.bytes.now))
        × Room text.old.bytes.now text.old.end (node_line (trits_of image.now.bytes.now) (shadows_of image.now.bytes.now) i) }
    ensures wrote { Wrote text.old.bytes.now text.old.end (node_line (trits_of image.now.bytes.now) (shadows_of image.now.bytes.now) i) text.new.end text.new.bytes.now }
    ensures same { text.new.bytes.ghost_name ≡ text.old.bytes.ghost_name }
{
    text.put_decimal(i as usize);
    put_neighbours(text, b":", image, Kind::OperandCount, Kind::Operand, i);
    put_neighbours(text, b" |", image, Kind::UseCount, Kind::User, i);
    text.put(b"\n");
}

// Puts the lines of all nodes.
pub fn put_nodes(text: &mut Text, image: &Image)
    requires { Room text.old.bytes.now text.old.end
        (join (map (node_line (trits_of image.now.bytes.now) (shadows_of image.now.bytes.now)) (one_to (node_count (trits_of image.now.bytes.now))))) }
    ensures wrote { Wrote text.old.bytes.now text.old.end
        (join (map (node_line (trits_of image.now.bytes.now) (shadows_of image.now.bytes.now)) (one_to (node_count (trits_of image.now.bytes.now)))))
        text.new.end text.new.bytes.now }
    ensures same { text.new.bytes.ghost_name ≡ text.old.bytes.ghost_name }
{
    for i in 1..=image.lay.nodes {
        put_node(text, image, i as u32);
    }
}

// Puts the first line, of counts.
pub fn put_counts(text: &mut Text, image: &Image)
    requires { Room text.old.bytes.now text.old.end (count_line (trits_of image.now.bytes.now) (shadows_of image.now.bytes.now)) }
    ensures wrote { Wrote text.old.bytes.now text.old.end (count_line (trits_of image.now.bytes.now) (shadows_of image.now.bytes.now)) text.new.end text.new.bytes.now }
    ensures same { text.new.bytes.ghost_name ≡ text.old.bytes.ghost_name }
{
    let lay = image.lay;
    let edges = lay.nodes + lay.shadows - lay.roots;
    text.put_three(
        b"nodes ", lay.nodes, b" edges ", edges, b" roots ", lay.roots,
    );
    let bytes = image.bytes.len();
    text.put_three(
        b" trits ",
        lay.trits,
        b" shadows ",
        lay.shadows,
        b" bytes ",
        bytes,
    );
    text.put(b"\n");
}
