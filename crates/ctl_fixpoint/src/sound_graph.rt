// A graph, with what is known of every graph.
ghost use Rattle.std.specs.Prelude.{◌≡◌};
ghost use Rattle.cfg_build.specs.CfgGraph.Flow.{IsSound};
ghost use Rattle.ctl_fixpoint.specs.OneProof.{is_sound-prop};

use cfg_build::Graph;

/// A graph that contracts know to be sound: each node has a successor, and all numbers are nodes. Every graph is.
#[derive(Clone, Copy)]
pub struct SoundGraph<'g, 'a> {
    /// The graph itself.
    pub graph: &'g Graph<'a>,
    pub ghost sound: { IsSound graph.now } by { is_sound-prop graph.now },
}

impl<'g, 'a> SoundGraph<'g, 'a> {
    /// Returns this graph as a sound one. Takes no memory.
    pub fn of(graph: &'g Graph<'a>) -> SoundGraph<'g, 'a>
        ensures same { result.graph.now ≡ graph.now }
    {
        // The contract of this call says that the graph is sound.
        let _count = graph.count();
        SoundGraph { graph }
    }
}
