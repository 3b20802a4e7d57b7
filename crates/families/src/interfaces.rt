// What a family of kinds answers beside what `kinds` has of terminators and branches. Each trait has a ghost meaning, a function of kind and
// page alone; asking answers by it and changes nothing. A `shown_` function has nothing to run: it is where a family shows its duties, and a
// fact for whoever calls it. Kinds are asked for by their byte, since families are open: any byte is a kind of some family.
ghost use Rattle.std.specs.Prelude.{◌≡◌, ◌≤◌, true, length};
ghost use Rattle.ir.specs.Limits.{limits};
ghost use Rattle.pages.specs.Seen.{seen};
ghost use Rattle.kinds.specs.Family.{SuccessorThere};
ghost use Rattle.families.specs.EdgeLimits.{edge_limits};
ghost use Rattle.families.specs.Family.{Segmenting, SegmentLaws, Segments, BranchSegmentLaws, KindLaws};
ghost use Rattle.families.specs.Edges.{Regional, EdgesAccepted, RegionLaws, EdgeThere, Written, ends_of, edge_of};

use crate::edge::{EdgeEnds, Flow};
use ir::refusal::LayoutCode;
use ir::value::{Operand, Use};
use kinds::interfaces::{BranchOpInterface, IsTerminatorInterface};
use pages::page::OpPage;

// Which kinds have their operands in segments.
pub trait OperandSegmentInterface {
    ghost segmenting: { Self → Segmenting };

    fn shown_segments(&self)
        ensures { SegmentLaws limits (segmenting self.now) };

    fn is_segmented(&self, kind: u8) -> bool
        ensures { result ≡ (segmenting self.now).segmented kind };

    // the number of segments, where it is fixed
    fn expected_num_segments(&self, kind: u8) -> Option<usize>
        ensures { result ≡ (segmenting self.now).expected kind };
}

// Which branches hand on segments, and what becomes of a branch whose operands are inserted and removed.
pub trait BranchSegmentInterface: BranchOpInterface {
    ghost segment_of: { Self → Segments };

    fn shown_branch_segments(&self)
        ensures { BranchSegmentLaws (Self.BranchOpInterface.branching self.now) (segment_of self.now) };

    // the segment that the operands that go to successor s are, where they are one
    fn successor_operand_segment(&self, page: &OpPage<'_>, s: usize) -> Option<usize>
        requires { SuccessorThere (Self.BranchOpInterface.branching self.now) (seen page.now) s }
        ensures value { result ≡ segment_of self.now (seen page.now) s }
        ensures ends { Self.IsTerminatorInterface.terminates self.now (seen page.now).kind ≡ true };
}

// Which kinds have edges into, out of and between their regions. Edges are asked for one by one.
pub trait RegionBranchOpInterface: IsTerminatorInterface {
    ghost regional: { Self → Regional };

    fn shown_edges(&self)
        ensures { RegionLaws limits edge_limits (regional self.now) };

    fn has_region_edges(&self, kind: u8) -> bool
        ensures { result ≡ (regional self.now).has kind };

    // accepted, or the family's code
    fn region_edges_layout(&self, page: &OpPage<'_>) -> Result<(), LayoutCode>
        requires { (regional self.now).has (seen page.now).kind ≡ true }
        ensures { result ≡ (regional self.now).layout (seen page.now) };

    fn num_region_edges(&self, page: &OpPage<'_>) -> usize
        requires { EdgesAccepted (regional self.now) (seen page.now) }
        ensures { result ≡ length ((regional self.now).edges (seen page.now)) };

    // edge i: where it leaves and leads, and how long its lists are
    fn region_edge_ends(&self, page: &OpPage<'_>, i: usize) -> EdgeEnds
        requires { EdgeThere (regional self.now) (seen page.now) i }
        ensures { result ≡ ends_of (edge_of (regional self.now) (seen page.now) i) };

    // the flows of edge i, written to the front of the list; the reads have a method of their own, since a family could not make the items
    // of a list of any type
    fn region_edge_flows(&self, page: &OpPage<'_>, i: usize, out: &mut [Flow])
        requires edge { EdgeThere (regional self.now) (seen page.now) i }
        requires room { length (edge_of (regional self.now) (seen page.now) i).flows ≤ length out.old }
        ensures { Written (edge_of (regional self.now) (seen page.now) i).flows out.old out.new };

    // the reads of edge i, written to the front of the list
    fn region_edge_reads(&self, page: &OpPage<'_>, i: usize, out: &mut [Use<Operand>])
        requires edge { EdgeThere (regional self.now) (seen page.now) i }
        requires room { length (edge_of (regional self.now) (seen page.now) i).reads ≤ length out.old }
        ensures { Written (edge_of (regional self.now) (seen page.now) i).reads out.old out.new };
}

// A family of kinds: every interface, and what they show together.
pub trait Kinds: OperandSegmentInterface + BranchSegmentInterface + RegionBranchOpInterface {
    fn shown_kinds(&self)
        ensures { KindLaws (Self.OperandSegmentInterface.segmenting self.now) (Self.BranchOpInterface.branching self.now) (Self.BranchSegmentInterface.segment_of self.now) };
}
