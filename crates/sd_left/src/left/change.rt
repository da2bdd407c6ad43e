//! Counts of a tree that changes, each along one path.
ghost use Rattle.std.specs.Prelude.{◌≡◌, ◌<◌, ◌++◌, ◌∷◌, [], ℕ, length, true, ◌&&◌, OnOk};
ghost use Rattle.sd_work.specs.Memory.{Memories};
ghost use Rattle.sd_left.specs.declared.left.left.Left.{Left as LeftNow};
ghost use Rattle.sd_left.specs.declared.left.left.Bodies.{Bodies as BodiesNow};
ghost use Rattle.sd_left.specs.declared.left.left.Body.{Body as BodyNow};
ghost use Rattle.sd_left.specs.declared.left.left.Left.TheViews.{out-Bodies, out-Body};
ghost use Rattle.sd_left.specs.left.Kept.{bodies_kept, body_kept};
ghost use Rattle.sd_left.specs.left.Waits.{are_bodies_counted, is_body_counted};
ghost use Rattle.sd_left.specs.left.Tells.{tells, bodies_tell, body_tells};
ghost use Rattle.sd_left.specs.left.Changed.{HasBody, HasPart};

use crate::left::count::{moves_of_part, moves_of_parts};
use crate::left::left::{Bodies, Body};
use crate::left::tells::{
    is_body_finished, is_finished, moves_of_body, one_if, pools_of, pools_of_body,
};
use sd_list::{NoMemory, Tally};
use std::alloc::Global;

impl Bodies {
    /// Puts one more body behind the others.
    pub fn push(&mut self, body: Body) -> Result<(), NoMemory>
        ensures kept { OnOk result (bodies_kept self.new ≡ bodies_kept self.old ++ body_kept body ∷ []) }
        ensures counted { OnOk result ((memories : Memories) → are_bodies_counted self.new memories ≡ (are_bodies_counted self.old memories && is_body_counted body memories)) }
        ensures right { OnOk result ((bodies_tell self.old).is_right ≡ true → (body_tells body).is_right ≡ true → (bodies_tell self.new).is_right ≡ true) }
    {
        self.moves.push(moves_of_body(&body))?;
        self.unfinished.push(one_if(!is_body_finished(&body)))?;
        self.open.push(pools_of_body(&body))?;
        self.bodies.push(body)?;
        Ok(())
    }

    /// Counts a body again that was changed.
    pub fn count_again(&mut self, number: usize) -> Result<(), NoMemory>
        requires there { number < length (out-Bodies self.old).bodies.items }
        ensures bodies { (out-Bodies self.new).bodies ≡ (out-Bodies self.old).bodies }
        ensures right { OnOk result ((before : BodiesNow) (body : BodyNow) → HasBody before number body self.old → (bodies_tell before).is_right ≡ true → (body_tells body).is_right ≡ true → (bodies_tell self.new).is_right ≡ true) }
    {
        let body = &self.bodies[number];
        let moves = moves_of_body(body);
        let unfinished = one_if(!is_body_finished(body));
        let pools = pools_of_body(body);
        self.moves.set(number, moves)?;
        self.unfinished.set(number, unfinished)?;
        self.open.set(number, pools)
    }
}

impl Body {
    /// Counts an item again that was changed. Where it was finished by that, or is no longer so, each item is counted that may go on.
    pub fn count_again(&mut self, alloc: Global, number: usize) -> Result<(), NoMemory>
        requires there { number < length (out-Body self.old).parts.items }
        ensures at { (out-Body self.new).at ≡ (out-Body self.old).at }
        ensures own { (out-Body self.new).own ≡ (out-Body self.old).own }
        ensures order { (out-Body self.new).order ≡ (out-Body self.old).order }
        ensures parts { (out-Body self.new).parts ≡ (out-Body self.old).parts }
        ensures right { OnOk result ((before : BodyNow) (part : LeftNow) → HasPart before number part self.old → (body_tells before).is_right ≡ true → (tells part).is_right ≡ true → (body_tells self.new).is_right ≡ true) }
    {
        let part = &self.parts[number];
        let unfinished = one_if(!is_finished(part));
        let pools = pools_of(part)?;
        self.open.set(number, pools)?;
        let before = self.unfinished.count(number);
        self.unfinished.set(number, unfinished)?;
        if before == unfinished {
            let moves = moves_of_part(&self.order, &self.parts, number)?;
            return self.moves.set(number, moves);
        }
        let moves = moves_of_parts(alloc, &self.order, &self.parts)?;
        self.moves = Tally::of(alloc, &moves)?;
        Ok(())
    }
}
