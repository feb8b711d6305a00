//! What commands read and where they print: the standard streams.

use hg_streams::input::Input;
use hg_streams::output::{Output, Outputs};
use hg_streams::streams::Streams;
use hg_verbose::lines::Lines;
use hg_verbose::noted::{NotedReader, NotedWriter};
use std::io::{Stderr, Stdin, Stdout};

/// The three standard streams.
pub fn plain_streams(rt: &HostRuntime) -> Streams<Stdin, Stdout, Stderr> {
    Streams {
        input: Input::new(rt.stdin()),
        output: Output::new(rt.stdout()),
        faults: Output::new(rt.stderr()),
    }
}

/// The three standard streams, where the lines that are read, the last line that is printed, and the errors are noted.
pub fn noted_streams(
    rt: &HostRuntime,
    lines: Lines,
) -> Streams<NotedReader<Stdin>, NotedWriter<Stdout>, NotedWriter<Stderr>> {
    Streams {
        input: Input::new(NotedReader::new(rt.stdin(), lines)),
        output: Output::new(NotedWriter::new(rt.alloc(), rt.stdout())),
        faults: Output::new(NotedWriter::new(rt.alloc(), rt.stderr())),
    }
}

/// Standard output, and standard error for faults.
pub fn plain_outputs(rt: &HostRuntime) -> Outputs<Stdout, Stderr> {
    Outputs {
        output: Output::new(rt.stdout()),
        faults: Output::new(rt.stderr()),
    }
}

/// Standard output, and standard error for faults, where the last line and the errors are noted.
pub fn noted_outputs(rt: &HostRuntime) -> Outputs<NotedWriter<Stdout>, NotedWriter<Stderr>> {
    Outputs {
        output: Output::new(NotedWriter::new(rt.alloc(), rt.stdout())),
        faults: Output::new(NotedWriter::new(rt.alloc(), rt.stderr())),
    }
}
