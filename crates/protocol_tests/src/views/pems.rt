//! Certificates as PEM. The wanted texts are those of OpenSSL, or of Python's `base64` and `textwrap` for bytes that are no certificate.
use super::bundles::{DEFAULT, LARGE_CURVE, LARGE_KEY, ROTATION, WITHDRAWN};
use super::{dump_of, put_all};
use dump_views::{PemError, put_dump_pem, put_pem};
use spiffe_doc::{TrustDomain, read_document};
use std::alloc::{AllocError, Global};
use std::test::Fail;
use test_kit::{holds_at, is_equal_at};

const DEFAULT_PEM: &str =
    "-----BEGIN CERTIFICATE-----\nMIIBZjCCAQugAwIBAgIJAJG3WEoiZbH1MAoGCCqGSM49BAMCMB0xDjAMBgNVBAoM\nBVNQSVJFMQswCQYDVQQGEwJVUzAeFw0yNjAxMDEwMDAwMDBaFw0yNzAxMDEwMDAw\nMDBaMB0xDjAMBgNVBAoMBVNQSVJFMQswCQYDVQQGEwJVUzBZMBMGByqGSM49AgEG\nCCqGSM49AwEHA0IABPhu36fo8zR8Na7xuC0v8qrwDjJJy/Nth3uY8Ujb70wTIZ+p\nqtQPNwT+ATj5DnXY1n97YBJfljCTbwabVztyAbSjNDAyMA8GA1UdEwEB/wQFMAMB\nAf8wHwYDVR0RBBgwFoYUc3BpZmZlOi8vZXhhbXBsZS5vcmcwCgYIKoZIzj0EAwID\nSQAwRgIhAOCQ9elfPJjrYR6wqnuDbcbLqE2/OEQ95er2HTp4cT0FAiEAy9fn5GWX\nXnuYP+c+/nwylq53vvHqjd/ZOO6BEhrbPRw=\n-----END CERTIFICATE-----\n";

const ROTATION_PEM: &str =
    "-----BEGIN CERTIFICATE-----\nMIIBpjCCASygAwIBAgIIYS52lqbOzBswCgYIKoZIzj0EAwIwHTEOMAwGA1UECgwF\nU1BJUkUxCzAJBgNVBAYTAlVTMB4XDTI2MDEwMTAwMDAwMFoXDTI3MDEwMTAwMDAw\nMFowHTEOMAwGA1UECgwFU1BJUkUxCzAJBgNVBAYTAlVTMHYwEAYHKoZIzj0CAQYF\nK4EEACIDYgAEZE2OmqkIfoY0+40qXCGbdQa7XmwkYYhlKWzsPFl0c2TCETTsuVD4\nF6VTzqmPaInZzTp6wNgedLJLQLSWl8Sc3smMBiQ8subdZ6+d0hY+eJq6z8VnsAA6\nGCOsdDUMZlaLozkwNzAPBgNVHRMBAf8EBTADAQH/MCQGA1UdEQQdMBuGGXNwaWZm\nZTovL3Byb2QuZXhhbXBsZS5vcmcwCgYIKoZIzj0EAwIDaAAwZQIxAN9p09JWVml9\n1e9wKs1lqnXIER48Wux+0bMKbaqReTRuEyECMEzRnlutT4cWNDF63QIwT6CF7m7m\nId65g5jhDM10O9uiMOL2z2wAaX8RbXEI0n4iCjpsWItZ/aSOzI59vMrS\n-----END CERTIFICATE-----\n-----BEGIN CERTIFICATE-----\nMIIBpjCCASygAwIBAgIINb+ZLcnpxhYwCgYIKoZIzj0EAwIwHTEOMAwGA1UECgwF\nU1BJUkUxCzAJBgNVBAYTAlVTMB4XDTI2MDEwMTAwMDAwMFoXDTI3MDEwMTAwMDAw\nMFowHTEOMAwGA1UECgwFU1BJUkUxCzAJBgNVBAYTAlVTMHYwEAYHKoZIzj0CAQYF\nK4EEACIDYgAEk2g/c9GLI8FZ0Tk7vSwsooNshZrX9Lf1zKOPPaKGAAvREU8uJ14i\njDDrOLDdOoaHcCZIaFmKqS8JhLJPa0FhkFZsqaQbIkAJayFOMtg14tLGJSDoSeir\n88WLzYywItawozkwNzAPBgNVHRMBAf8EBTADAQH/MCQGA1UdEQQdMBuGGXNwaWZm\nZTovL3Byb2QuZXhhbXBsZS5vcmcwCgYIKoZIzj0EAwIDaAAwZQIxALL7q2q4YaRX\nSXa4fDw3TOO2SYsil5mjaVfakoB8usIWkgsbYVW8+UEozKflGT+keQIwYCu+t6pR\nJYf+hO48zEfudm5fL8o813OrscdbsoaWWwjguGTULtBoQsRv+i0NF9zD\n-----END CERTIFICATE-----\n";

const LARGE_CURVE_PEM: &str =
    "-----BEGIN CERTIFICATE-----\nMIIB6TCCAUugAwIBAgIJAOGYitnwbBRKMAoGCCqGSM49BAMCMB0xDjAMBgNVBAoM\nBVNQSVJFMQswCQYDVQQGEwJVUzAeFw0yNjAxMDEwMDAwMDBaFw0yNzAxMDEwMDAw\nMDBaMB0xDjAMBgNVBAoMBVNQSVJFMQswCQYDVQQGEwJVUzCBmzAQBgcqhkjOPQIB\nBgUrgQQAIwOBhgAEAFxrgwFU0W1cXRyiDD+YS65G3+I+u+FmnoiSX/OruP0bxWA5\nzRfjUsNIOFjecLgJC7kVnxI8GbEbT6XYBFLxfJqWAAFGxd5s39XCjPIkFXbNHJks\nUoEkIAG6c97Se9uXNwZUiQbooKkEaeoyzlgqGDnFHzUWAheLzprSnRPs81JfXtoi\nozEwLzAPBgNVHRMBAf8EBTADAQH/MBwGA1UdEQQVMBOGEXNwaWZmZTovL3RkXzUu\nMi0xMAoGCCqGSM49BAMCA4GLADCBhwJCAJ8QHYhYzRRrXJU4d1oIu61cOSYNPbZq\n5X+w77it5cFop1q1IXulSQqL9niL1az40Nw34MhTsJ1U/1W73rEXO7s0AkEu2Qp1\nL8RPAondDSGmHzb/BW3iEA9IecHDvS13ehnEhdlYIYSRdRu4ef2c6O/V72ciEEpZ\nD33GHyYOzQ2wzE/5GA==\n-----END CERTIFICATE-----\n";

const LARGE_KEY_PEM: &str =
    "-----BEGIN CERTIFICATE-----\nMIIE+DCCAuCgAwIBAgIJAJdV1ME6kCkxMA0GCSqGSIb3DQEBCwUAMB0xDjAMBgNV\nBAoMBVNQSVJFMQswCQYDVQQGEwJVUzAeFw0yNjAxMDEwMDAwMDBaFw0yNzAxMDEw\nMDAwMDBaMB0xDjAMBgNVBAoMBVNQSVJFMQswCQYDVQQGEwJVUzCCAiIwDQYJKoZI\nhvcNAQEBBQADggIPADCCAgoCggIBAMgGrFbJduaC4zu/31rl4zRZLmkb8QSLB8u/\nt7r3rfz3upFDhmk5iCrkKgh1K9EkS8hZmHtOAb0Q5VfA5SWvztKfcmExsIviDPW8\nOdtTs0Qcl7Nn8ASHWd2Fs410ZcIh14Tg/q/vPWrxF53744dM1gx3y/OZAEltJIFU\nvPIar8wkbvajboJnz1J5w1xXdl/U7JAeiD57rn0uDAXChvES0rxRrJBYG870Mqf9\nFfmeSRX5LBm0Vh5TSAkRA2d7bB+x2gxdqGgeycsyllP28Q7bCRpGK3WoI9CEk8eJ\nYEFcPYneBb+w1tHUrNdljOGw0hOuKASpKtLEAP6Y/nFLeXcLIYsFNJwJVfT3YZKT\noe8LXIBMQ8UqzPT8p1SAQcFWp4bMAFGacHtG3XnMDDoEAcr3g15Po7GNrM4N0RN3\nmQGEAFtyNCCMdAmy/7WlepOmett4wzsVkZ2+JYkBk1d2IzoZkKd1NImUQA9dSqIq\n44KJ1rpkk9UmZIupJbIbz4PCMTQK4nOhBUn1+Ecc9IQDQjTYVEfD+S2vvMXnJuik\nn3+Gq2Osy7zeBD5Q6vKsEFCUU3u+S9Aw+lQ9DC72FrRrhluAXCUDQG7la/AglbFS\n5saP+b9AfZ0R4mLxNaLpuU3267OshRq5Jh98j4EPyTdUDfEwDfP+uyfE3ZCuvs9e\nFaEqc1d3AgMBAAGjOzA5MA8GA1UdEwEB/wQFMAMBAf8wJgYDVR0RBB8wHYYbc3Bp\nZmZlOi8vbGVnYWN5LmV4YW1wbGUuY29tMA0GCSqGSIb3DQEBCwUAA4ICAQDAsk8I\nxfsQzBrDaRoQ8oU5BiC4u6vJPnvzyTl1x5jtUHDOA5IzsLQXbjNJCz7lgzhCit3S\ndJAVjsX6PVU+PYei/vaF0XTJXjaJFAQ8RrhhY45XoAu8aaAQ/q6id6wDJNnjYaB/\n9zrkZo4Ed8nqB6PkxPSMxcW7A9YAfYq3UsdiQiakapi2c8lgUBbm2WaZuyHtFju8\nlMoeFShXIaEMLMTgeUCuZOtFkxUZE9eAvx8m7kKJTwjjVOhQ9rij8F2aAiAtfGK+\n7GS5+aELeKYtL837l/TVZqZe9k4ukpCtIfLSeHCuIQlzn9/uPEYqsHwXGu+3ckHp\nq8++cOHOErnjhUAeEoNeuagemJyuM550Yh2NO52SjjKaz1glTX0+dxfMDjU5wO1m\nKmg240qJcVHOtHao7ycm7b56H+E78LB1yBjR8NOOBvLuTNchMX7Ba0xCxV9fpnNz\nXITGNyxiBf26ZMe5UslDLgfEyJBOAF8FeUryUlbeCabqqFL2izNlQxWNaCb2S1dg\n1xdyRbrtA/iXZ9xzSbeGd7jM4hKYDeebCQZi7g2ozn89mxxSpMan1bht8BPpH6ps\nyLrCsuRe0fc6NiEDh/MjSZiM3lciQjaJWPBXjivk/JcBHeGWtR8oDZj27h5LdCEU\nkeR4UUQvN4bd6COYrPRLQi7B70Pf33d9lykgaw==\n-----END CERTIFICATE-----\n";

/// Bytes of a certificate as base64, and its lines.
static LINES: [(&[u8], &[u8]); 11] = [
    // 1 bytes
    (b"AQ==", b"AQ=="),
    // 2 bytes
    (b"Agk=", b"Agk="),
    // 3 bytes
    (b"AwoR", b"AwoR"),
    // 46 bytes
    (
        b"LjU8Q0pRWF9mbXR7gomQl56lrLO6wcjP1t3k6/L5AAcOFRwjKjE4P0ZNVFtiaQ==",
        b"LjU8Q0pRWF9mbXR7gomQl56lrLO6wcjP1t3k6/L5AAcOFRwjKjE4P0ZNVFtiaQ==",
    ),
    // 47 bytes
    (
        b"LzY9REtSWWBnbnV8g4qRmJ+mrbS7wsnQ197l7PP6AQgPFh0kKzI5QEdOVVxjanE=",
        b"LzY9REtSWWBnbnV8g4qRmJ+mrbS7wsnQ197l7PP6AQgPFh0kKzI5QEdOVVxjanE=",
    ),
    // 48 bytes
    (
        b"MDc+RUxTWmFob3Z9hIuSmaCnrrW8w8rR2N/m7fT7AgkQFx4lLDM6QUhPVl1ka3J5",
        b"MDc+RUxTWmFob3Z9hIuSmaCnrrW8w8rR2N/m7fT7AgkQFx4lLDM6QUhPVl1ka3J5",
    ),
    // 49 bytes
    (
        b"MTg/Rk1UW2JpcHd+hYyTmqGor7a9xMvS2eDn7vX8AwoRGB8mLTQ7QklQV15lbHN6gQ==",
        b"MTg/Rk1UW2JpcHd+hYyTmqGor7a9xMvS2eDn7vX8AwoRGB8mLTQ7QklQV15lbHN6\ngQ==",
    ),
    // 95 bytes
    (
        b"X2ZtdHuCiZCXnqWss7rByM/W3eTr8vkABw4VHCMqMTg/Rk1UW2JpcHd+hYyTmqGor7a9xMvS2eDn7vX8AwoRGB8mLTQ7QklQV15lbHN6gYiPlp2kq7K5wMfO1dzj6vE=",
        b"X2ZtdHuCiZCXnqWss7rByM/W3eTr8vkABw4VHCMqMTg/Rk1UW2JpcHd+hYyTmqGo\nr7a9xMvS2eDn7vX8AwoRGB8mLTQ7QklQV15lbHN6gYiPlp2kq7K5wMfO1dzj6vE=",
    ),
    // 96 bytes
    (
        b"YGdudXyDipGYn6attLvCydDX3uXs8/oBCA8WHSQrMjlAR05VXGNqcXh/ho2Um6KpsLe+xczT2uHo7/b9BAsSGSAnLjU8Q0pRWF9mbXR7gomQl56lrLO6wcjP1t3k6/L5",
        b"YGdudXyDipGYn6attLvCydDX3uXs8/oBCA8WHSQrMjlAR05VXGNqcXh/ho2Um6Kp\nsLe+xczT2uHo7/b9BAsSGSAnLjU8Q0pRWF9mbXR7gomQl56lrLO6wcjP1t3k6/L5",
    ),
    // 97 bytes
    (
        b"YWhvdn2Ei5KZoKeutbzDytHY3+bt9PsCCRAXHiUsMzpBSE9WXWRrcnmAh46VnKOqsbi/xs3U2+Lp8Pf+BQwTGiEoLzY9REtSWWBnbnV8g4qRmJ+mrbS7wsnQ197l7PP6AQ==",
        b"YWhvdn2Ei5KZoKeutbzDytHY3+bt9PsCCRAXHiUsMzpBSE9WXWRrcnmAh46VnKOq\nsbi/xs3U2+Lp8Pf+BQwTGiEoLzY9REtSWWBnbnV8g4qRmJ+mrbS7wsnQ197l7PP6\nAQ==",
    ),
    // 144 bytes
    (
        b"kJeepayzusHIz9bd5Ovy+QAHDhUcIyoxOD9GTVRbYmlwd36FjJOaoaivtr3Ey9LZ4Ofu9fwDChEYHyYtNDtCSVBXXmVsc3qBiI+WnaSrsrnAx87V3OPq8fj/Bg0UGyIpMDc+RUxTWmFob3Z9hIuSmaCnrrW8w8rR2N/m7fT7AgkQFx4lLDM6QUhPVl1ka3J5",
        b"kJeepayzusHIz9bd5Ovy+QAHDhUcIyoxOD9GTVRbYmlwd36FjJOaoaivtr3Ey9LZ\n4Ofu9fwDChEYHyYtNDtCSVBXXmVsc3qBiI+WnaSrsrnAx87V3OPq8fj/Bg0UGyIp\nMDc+RUxTWmFob3Z9hIuSmaCnrrW8w8rR2N/m7fT7AgkQFx4lLDM6QUhPVl1ka3J5",
    ),
];

/// Fails unless this is the PEM of a document.
fn pem_is(alloc: Global, document: &[u8], wanted: &[u8]) -> Result<(), Fail> {
    let mut out = Vec::new(alloc);
    holds_at(is_put(alloc, document, &mut out)?, &document)?;
    is_equal_at(&out.as_slice(), &wanted, &document)
}

static BUNDLES: [(&str, &str); 5] = [
    (WITHDRAWN, ""),
    (DEFAULT, DEFAULT_PEM),
    (ROTATION, ROTATION_PEM),
    (LARGE_CURVE, LARGE_CURVE_PEM),
    (LARGE_KEY, LARGE_KEY_PEM),
];

#[test]
fn certificates_of_bundles(rt: HostRuntime) -> Result<(), Fail> {
    let alloc = rt.alloc();
    for &(document, wanted) in &BUNDLES {
        pem_is(alloc, document.as_bytes(), wanted.as_bytes())?;
    }
    let entry: &[u8] =
        b"{\"keys\":[{\"kty\":\"RSA\",\"use\":\"x509-svid\",\"n\":\"AQAB\",\"e\":\"AQAB\",\"x5c\":[\"";
    let first: &[u8] = b"-----BEGIN CERTIFICATE-----\n";
    for &(der, lines) in &LINES {
        let (mut document, mut pem) = (Vec::new(alloc), Vec::new(alloc));
        put_all(&mut document, &[entry, der, b"\"]}]}"])?;
        put_all(&mut pem, &[first, lines, b"\n-----END CERTIFICATE-----\n"])?;
        pem_is(alloc, &document, &pem)?;
    }
    Ok(())
}

/// Fails unless this is found of a domain of a dump, and this text is appended.
fn dump_pem_is(
    alloc: Global,
    dump: &[u8],
    name: &str,
    wanted: Result<(), PemError>,
    pem: &str,
) -> Result<(), Fail> {
    let domain = TrustDomain::parse(alloc, name)?;
    let mut out = Vec::from_slice(alloc, b"before\n")?;
    let found = put_dump_pem(alloc, dump, &domain, &mut out);
    is_equal_at(&found, &wanted, &name)?;
    let added = out.as_slice().strip_prefix(b"before\n");
    is_equal_at(&added, &Some(pem.as_bytes()), &name)
}

static THREE: [(&str, &str); 3] = [("a.example", DEFAULT), ("b", ROTATION), ("c", WITHDRAWN)];

/// Names, whether a domain of the three has it, and its certificates.
static NAMES: [(&str, Result<(), PemError>, &str); 6] = [
    ("a.example", Ok(()), DEFAULT_PEM),
    ("b", Ok(()), ROTATION_PEM),
    ("c", Ok(()), ""),
    ("a", Err(PemError::NoDomain), ""),
    ("b.example", Err(PemError::NoDomain), ""),
    ("d", Err(PemError::NoDomain), ""),
];

static TWO: [(&str, &str); 2] = [("a", DEFAULT), ("b", WITHDRAWN)];

static REVERSED: [(&str, &str); 2] = [("b", DEFAULT), ("a", WITHDRAWN)];

#[test]
fn certificates_of_a_domain_of_a_dump(rt: HostRuntime) -> Result<(), Fail> {
    let alloc = rt.alloc();
    let dump = dump_of(alloc, &THREE)?;
    for &(name, wanted, pem) in &NAMES {
        dump_pem_is(alloc, &dump, name, wanted, pem)?;
    }
    Ok(())
}

// No bytes, a dump that lacks its last byte, one that lacks its domains, and one that has them out of order.
#[test]
fn no_certificates_of_what_is_no_dump(rt: HostRuntime) -> Result<(), Fail> {
    let alloc = rt.alloc();
    let mut short = dump_of(alloc, &TWO)?;
    let _last = short.pop();
    let reversed = dump_of(alloc, &REVERSED)?;
    let none: &[u8] = b"\x00\x00\x00\x09a\x00\x00\x00\x00\x00\x00\x00\x02";
    let rows: [(&[u8], u64); 4] = [(b"", 0), (&short, 2), (none, 1), (&reversed, 2)];
    for &(dump, place) in &rows {
        dump_pem_is(alloc, dump, "a", Err(PemError::BadDump(place)), "")?;
    }
    Ok(())
}

/// Appends the certificates of a document. Answers whether there was memory for them.
fn is_put(alloc: Global, document: &[u8], out: &mut Vec<u8>) -> Result<bool, Fail> {
    let bundle = read_document(alloc, document)?;
    Ok(put_pem(&bundle, out).is_ok())
}

#[test]
fn a_refused_growth_leaves_no_part_of_a_pem(rt: HostRuntime) -> Result<(), Fail> {
    let alloc = rt.alloc();
    let (document, pem) = BUNDLES[2];
    let mut out = Vec::from_slice(alloc, b"before\n")?;
    let is_whole = is_put(alloc, document.as_bytes(), &mut out)?;
    let size = if is_whole { pem.len() } else { 0 };
    let (wanted, _) = pem.as_bytes().split_at(size);
    let added = out.as_slice().strip_prefix(b"before\n");
    is_equal_at(&added, &Some(wanted), &"whole, or nothing")?;
    if is_whole {
        return Ok(());
    }
    Err(Fail::from(AllocError))
}
