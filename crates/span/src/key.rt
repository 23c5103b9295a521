// The keys that have a meaning of their own, beside those that every stock holds.
ghost use Rattle.std.specs.Prelude.{◌≡◌};
ghost use Rattle.span.specs.Keys.{key_bytes};

#[derive(Clone, Copy, PartialEq, Eq, Debug)]
pub enum Key {
    // 1.0 here says that the tracer takes the span for the top level of its service.
    TracerTopLevel,
    // 1.0 here says that the span is to be measured.
    Measured,
    // 0.0 or more here says that the span has not ended yet.
    PartialVersion,
    // 8.0 here says that the span is sampled by itself.
    SpanSamplingMechanism,
    // Whatever stands here, the span is sampled for analytics.
    AnalyticsRate,
    // The sampling priority of the span's chunk.
    SamplingPriority,
    // Four tags that a v1 span has as fields.
    Env,
    Version,
    Component,
    SpanKind,
}

impl Key {
    #[tactic(auto, unfolding(crate::specs::Keys::key_bytes))]
    pub fn bytes(self) -> &'static [u8]
        ensures { result.now ≡ key_bytes self }
    {
        match self {
            Key::TracerTopLevel => b"_dd.top_level",
            Key::Measured => b"_dd.measured",
            Key::PartialVersion => b"_dd.partial_version",
            Key::SpanSamplingMechanism => b"_dd.span_sampling.mechanism",
            Key::AnalyticsRate => b"_dd1.sr.eausr",
            Key::SamplingPriority => b"_sampling_priority_v1",
            Key::Env => b"env",
            Key::Version => b"version",
            Key::Component => b"component",
            Key::SpanKind => b"span.kind",
        }
    }
}
