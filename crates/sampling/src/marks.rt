// The words of a record: what it was sampled with.
ghost use Rattle.std.specs.Prelude.{◌≡◌, length};
ghost use Rattle.sampling.specs.Constants.{marks_length, threshold_of};
ghost use Rattle.sampling.specs.Sampling.{words_of};

use crate::Sampler;

// Writes the bits of the threshold in force, not of the one asked for, and those of both ends of the domain.
pub(crate) fn put(threshold: f32, min: f32, max: f32, marks: &mut [u32])
    requires { length marks.old ≡ marks_length }
    ensures { marks.new ≡ words_of (threshold_of threshold) min max }
{
    let sampler = Sampler::new(threshold);
    marks.copy_from_slice(&[
        float::to_bits(sampler.threshold),
        float::to_bits(min),
        float::to_bits(max),
    ]);
}
