// Which block a flush moves from a bucket to its child, and the move.
ghost use Rattle.std.specs.Prelude.{◌≡◌, ℕ, ◌<◌, ◌≤◌, true, ◌&&◌, IfSome, if◌then◌else◌, None, nat_le};
ghost use Rattle.tree.specs.Choice.{Moves, chosen, moved_child, moved_parent};
ghost use Rattle.tree.specs.Paths.{is_leaf};

use super::Bucket;
use crate::numbers::Leaf;
use crate::place::Place;

impl Bucket {
    // The place whose block moves to the child, the bucket at a layer of the path of a leaf. Of the blocks that may lie there
    // it is the one whose path shares most buckets with that path, since it can go down furthest, and the lowest place on a
    // tie. None where no block may, where the child has no empty place, or where there is no such depth, leaf or layer.
    pub fn chosen(&self, child: &Bucket, depth: u32, leaf: Leaf, layer: u32) -> Option<usize>
        ensures value { result ≡ (if is_leaf depth leaf.0 && nat_le layer depth then chosen depth leaf.0 layer self.now.places child.now.places else None) }
        ensures moves { is_leaf depth leaf.0 ≡ true → layer ≤ depth → Moves depth leaf.0 layer self.now.places child.now.places result }
        ensures within { IfSome result (λ i. i < 4) }
    {
        if child.lowest_empty().is_none() {
            return None;
        }
        let mut best = None;
        let mut top = 0;
        for (i, place) in self.places.iter().enumerate() {
            let score = place.score(depth, leaf, layer);
            // a tie stays with the lower place
            if score > top {
                best = Some(i);
                top = score;
            }
        }
        best
    }

    // Moves the chosen block, if there is one, to the lowest empty place of the child. Its ten words go as they are, and the
    // place that they leave is emptied; all other places keep their words.
    pub fn move_down(&mut self, child: &mut Bucket, depth: u32, leaf: Leaf, layer: u32)
        ensures parent { self.new.places ≡ moved_parent depth leaf.0 layer self.old.places child.old.places }
        ensures child { child.new.places ≡ moved_child depth leaf.0 layer self.old.places child.old.places }
    {
        if let Some(from) = self.chosen(child, depth, leaf, layer)
            && let Some(to) = child.lowest_empty()
        {
            child.places[to] = self.places[from];
            self.places[from] = Place::empty();
        }
    }
}
