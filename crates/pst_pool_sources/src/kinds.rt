//! The kinds of references that may be sources.
ghost use Rattle.std.specs.Prelude.{◌≡◌};
ghost use Rattle.pst_scen.specs.declared.act.Flow.TheVariants as flow;
ghost use Rattle.pst_legal.specs.Supplied.{is_source_for};
ghost use Rattle.pst_legal.specs.SupplyReading.{is_writer};

use pst_scen::Flow;

// Whether it is the output of a buffer.
fn is_buffer_output(of: Flow) -> bool
    ensures { result ≡ is_source_for flow.BufferIn of }
{
    match of {
        Flow::BufferOut => true,
        _ => false,
    }
}

// Whether it is the output of a stream.
fn is_stream_output(of: Flow) -> bool
    ensures { result ≡ is_source_for flow.StreamIn of }
{
    match of {
        Flow::StreamOut => true,
        _ => false,
    }
}

// Whether it is the input of a stream.
fn is_stream_input(of: Flow) -> bool
    ensures { result ≡ is_source_for flow.StreamOut of }
{
    match of {
        Flow::StreamIn => true,
        _ => false,
    }
}

/// Whether it is the output of a state.
pub fn is_writer(of: Flow) -> bool
    ensures { result ≡ is_writer of }
{
    match of {
        Flow::StateOut => true,
        _ => false,
    }
}

/// Whether a reference of the second kind may be the source of one of the first, where both have one pool.
pub fn is_source_for(need: Flow, source: Flow) -> bool
    ensures { result ≡ is_source_for need source }
{
    match need {
        Flow::BufferIn => is_buffer_output(source),
        Flow::BufferOut => false,
        Flow::StreamIn => is_stream_output(source),
        Flow::StreamOut => is_stream_input(source),
        Flow::StateIn => is_writer(source),
        Flow::StateOut => is_writer(source),
    }
}
