// The pages of the pool; and in code, the number by which a page says a node's shape.
#![tactic(auto)]

ghost use Rattle.std.specs.Prelude.{◌≡◌};
ghost use Rattle.page.specs.Image.{shape_number};
ghost use Rattle.page.specs.Decode.{shape_of_number};

use node::Shape;

// 3 for a leaf, 4 for a branch.
pub fn shape_number(shape: Shape) -> u8
    ensures { result ≡ shape_number shape }
{
    match shape {
        Shape::Leaf => 3,
        Shape::Branch => 4,
    }
}

// The shape that a number says.
pub fn shape_of(number: u8) -> Shape
    ensures { result ≡ shape_of_number number }
{
    if number == 3 {
        return Shape::Leaf;
    }
    Shape::Branch
}
