//! A dump, and what it becomes by Python: its json, its base64 and its hashlib.

/// A dump of three domains: `a` has an authority of each kind, `b` has none, and `example.org` has the bundle of a server.
pub(super) const DUMP: &[u8] =
    b"\x00\x00\x00\x09a\x00\x00\x00\x00\x00\x00\x00\x03\x00\x00\x01\x19i\x01a{\"keys\":[{\"crv\":\"P-256\",\"kty\":\"EC\",\"use\":\"x509-svid\",\"x\":\"AAAAAAAAAAAAAAAAAAAAAAAAAAAAAAAAAAAAAAAAAAA\",\"x5c\":[\"MAA=\"],\"y\":\"AAAAAAAAAAAAAAAAAAAAAAAAAAAAAAAAAAAAAAAAAAA\"},{\"e\":\"AQAB\",\"kid\":\"j1\",\"kty\":\"RSA\",\"n\":\"AQAB\",\"use\":\"jwt-svid\"}],\"spiffe_refresh_hint\":2,\"spiffe_sequence\":1}\x00\x00\x00#i\x01b{\"keys\":[],\"spiffe_sequence\":12}\x00\x00\x03\x82i\x0bexample.org{\"keys\":[{\"crv\":\"P-256\",\"kty\":\"EC\",\"use\":\"x509-svid\",\"x\":\"-G7fp-jzNHw1rvG4LS_yqvAOMknL822He5jxSNvvTBM\",\"x5c\":[\"MIIBZjCCAQugAwIBAgIJAJG3WEoiZbH1MAoGCCqGSM49BAMCMB0xDjAMBgNVBAoMBVNQSVJFMQswCQYDVQQGEwJVUzAeFw0yNjAxMDEwMDAwMDBaFw0yNzAxMDEwMDAwMDBaMB0xDjAMBgNVBAoMBVNQSVJFMQswCQYDVQQGEwJVUzBZMBMGByqGSM49AgEGCCqGSM49AwEHA0IABPhu36fo8zR8Na7xuC0v8qrwDjJJy/Nth3uY8Ujb70wTIZ+pqtQPNwT+ATj5DnXY1n97YBJfljCTbwabVztyAbSjNDAyMA8GA1UdEwEB/wQFMAMBAf8wHwYDVR0RBBgwFoYUc3BpZmZlOi8vZXhhbXBsZS5vcmcwCgYIKoZIzj0EAwIDSQAwRgIhAOCQ9elfPJjrYR6wqnuDbcbLqE2/OEQ95er2HTp4cT0FAiEAy9fn5GWXXnuYP+c+/nwylq53vvHqjd/ZOO6BEhrbPRw=\"],\"y\":\"IZ-pqtQPNwT-ATj5DnXY1n97YBJfljCTbwabVztyAbQ\"},{\"crv\":\"P-256\",\"kid\":\"32rx2DA-Yc3Eu4bD0cQnEDw0TEGJ6y8e\",\"kty\":\"EC\",\"use\":\"jwt-svid\",\"x\":\"UTfGp93aN36aNN-PUhyJb6ah3wKm6QpswBpeQpXMLFY\",\"y\":\"DfVcPQON1Cuf8YEd4vrVy4GIhcbDJzkPXlaBuGU-0S4\"}],\"spiffe_refresh_hint\":2419200,\"spiffe_sequence\":1}";

/// Its map, as a line.
pub(super) const MAP: &[u8] =
    b"{\"trust_domains\":{\"a\":{\"keys\":[{\"crv\":\"P-256\",\"kty\":\"EC\",\"use\":\"x509-svid\",\"x\":\"AAAAAAAAAAAAAAAAAAAAAAAAAAAAAAAAAAAAAAAAAAA\",\"x5c\":[\"MAA=\"],\"y\":\"AAAAAAAAAAAAAAAAAAAAAAAAAAAAAAAAAAAAAAAAAAA\"},{\"e\":\"AQAB\",\"kid\":\"j1\",\"kty\":\"RSA\",\"n\":\"AQAB\",\"use\":\"jwt-svid\"}],\"spiffe_refresh_hint\":2,\"spiffe_sequence\":1},\"b\":{\"keys\":[],\"spiffe_sequence\":12},\"example.org\":{\"keys\":[{\"crv\":\"P-256\",\"kty\":\"EC\",\"use\":\"x509-svid\",\"x\":\"-G7fp-jzNHw1rvG4LS_yqvAOMknL822He5jxSNvvTBM\",\"x5c\":[\"MIIBZjCCAQugAwIBAgIJAJG3WEoiZbH1MAoGCCqGSM49BAMCMB0xDjAMBgNVBAoMBVNQSVJFMQswCQYDVQQGEwJVUzAeFw0yNjAxMDEwMDAwMDBaFw0yNzAxMDEwMDAwMDBaMB0xDjAMBgNVBAoMBVNQSVJFMQswCQYDVQQGEwJVUzBZMBMGByqGSM49AgEGCCqGSM49AwEHA0IABPhu36fo8zR8Na7xuC0v8qrwDjJJy/Nth3uY8Ujb70wTIZ+pqtQPNwT+ATj5DnXY1n97YBJfljCTbwabVztyAbSjNDAyMA8GA1UdEwEB/wQFMAMBAf8wHwYDVR0RBBgwFoYUc3BpZmZlOi8vZXhhbXBsZS5vcmcwCgYIKoZIzj0EAwIDSQAwRgIhAOCQ9elfPJjrYR6wqnuDbcbLqE2/OEQ95er2HTp4cT0FAiEAy9fn5GWXXnuYP+c+/nwylq53vvHqjd/ZOO6BEhrbPRw=\"],\"y\":\"IZ-pqtQPNwT-ATj5DnXY1n97YBJfljCTbwabVztyAbQ\"},{\"crv\":\"P-256\",\"kid\":\"32rx2DA-Yc3Eu4bD0cQnEDw0TEGJ6y8e\",\"kty\":\"EC\",\"use\":\"jwt-svid\",\"x\":\"UTfGp93aN36aNN-PUhyJb6ah3wKm6QpswBpeQpXMLFY\",\"y\":\"DfVcPQON1Cuf8YEd4vrVy4GIhcbDJzkPXlaBuGU-0S4\"}],\"spiffe_refresh_hint\":2419200,\"spiffe_sequence\":1}}}\n";

/// The map of `b` and `a`, as a line.
pub(super) const SOME: &[u8] =
    b"{\"trust_domains\":{\"a\":{\"keys\":[{\"crv\":\"P-256\",\"kty\":\"EC\",\"use\":\"x509-svid\",\"x\":\"AAAAAAAAAAAAAAAAAAAAAAAAAAAAAAAAAAAAAAAAAAA\",\"x5c\":[\"MAA=\"],\"y\":\"AAAAAAAAAAAAAAAAAAAAAAAAAAAAAAAAAAAAAAAAAAA\"},{\"e\":\"AQAB\",\"kid\":\"j1\",\"kty\":\"RSA\",\"n\":\"AQAB\",\"use\":\"jwt-svid\"}],\"spiffe_refresh_hint\":2,\"spiffe_sequence\":1},\"b\":{\"keys\":[],\"spiffe_sequence\":12}}}\n";

/// The map of the X.509 authorities of `a` and `b`, with no refresh hint, as a line.
pub(super) const X509_MAP: &[u8] =
    b"{\"trust_domains\":{\"a\":{\"keys\":[{\"crv\":\"P-256\",\"kty\":\"EC\",\"use\":\"x509-svid\",\"x\":\"AAAAAAAAAAAAAAAAAAAAAAAAAAAAAAAAAAAAAAAAAAA\",\"x5c\":[\"MAA=\"],\"y\":\"AAAAAAAAAAAAAAAAAAAAAAAAAAAAAAAAAAAAAAAAAAA\"}],\"spiffe_sequence\":1},\"b\":{\"keys\":[],\"spiffe_sequence\":12}}}\n";

/// The requests that set the three domains.
pub(super) const SETS: &[u8] =
    b"\x00\x00\x01\x19S\x01a{\"keys\":[{\"crv\":\"P-256\",\"kty\":\"EC\",\"use\":\"x509-svid\",\"x\":\"AAAAAAAAAAAAAAAAAAAAAAAAAAAAAAAAAAAAAAAAAAA\",\"x5c\":[\"MAA=\"],\"y\":\"AAAAAAAAAAAAAAAAAAAAAAAAAAAAAAAAAAAAAAAAAAA\"},{\"e\":\"AQAB\",\"kid\":\"j1\",\"kty\":\"RSA\",\"n\":\"AQAB\",\"use\":\"jwt-svid\"}],\"spiffe_refresh_hint\":2,\"spiffe_sequence\":1}\x00\x00\x00#S\x01b{\"keys\":[],\"spiffe_sequence\":12}\x00\x00\x03\x82S\x0bexample.org{\"keys\":[{\"crv\":\"P-256\",\"kty\":\"EC\",\"use\":\"x509-svid\",\"x\":\"-G7fp-jzNHw1rvG4LS_yqvAOMknL822He5jxSNvvTBM\",\"x5c\":[\"MIIBZjCCAQugAwIBAgIJAJG3WEoiZbH1MAoGCCqGSM49BAMCMB0xDjAMBgNVBAoMBVNQSVJFMQswCQYDVQQGEwJVUzAeFw0yNjAxMDEwMDAwMDBaFw0yNzAxMDEwMDAwMDBaMB0xDjAMBgNVBAoMBVNQSVJFMQswCQYDVQQGEwJVUzBZMBMGByqGSM49AgEGCCqGSM49AwEHA0IABPhu36fo8zR8Na7xuC0v8qrwDjJJy/Nth3uY8Ujb70wTIZ+pqtQPNwT+ATj5DnXY1n97YBJfljCTbwabVztyAbSjNDAyMA8GA1UdEwEB/wQFMAMBAf8wHwYDVR0RBBgwFoYUc3BpZmZlOi8vZXhhbXBsZS5vcmcwCgYIKoZIzj0EAwIDSQAwRgIhAOCQ9elfPJjrYR6wqnuDbcbLqE2/OEQ95er2HTp4cT0FAiEAy9fn5GWXXnuYP+c+/nwylq53vvHqjd/ZOO6BEhrbPRw=\"],\"y\":\"IZ-pqtQPNwT-ATj5DnXY1n97YBJfljCTbwabVztyAbQ\"},{\"crv\":\"P-256\",\"kid\":\"32rx2DA-Yc3Eu4bD0cQnEDw0TEGJ6y8e\",\"kty\":\"EC\",\"use\":\"jwt-svid\",\"x\":\"UTfGp93aN36aNN-PUhyJb6ah3wKm6QpswBpeQpXMLFY\",\"y\":\"DfVcPQON1Cuf8YEd4vrVy4GIhcbDJzkPXlaBuGU-0S4\"}],\"spiffe_refresh_hint\":2419200,\"spiffe_sequence\":1}";

/// The X.509 authority of `example.org`.
pub(super) const PEM: &[u8] =
    b"-----BEGIN CERTIFICATE-----\nMIIBZjCCAQugAwIBAgIJAJG3WEoiZbH1MAoGCCqGSM49BAMCMB0xDjAMBgNVBAoM\nBVNQSVJFMQswCQYDVQQGEwJVUzAeFw0yNjAxMDEwMDAwMDBaFw0yNzAxMDEwMDAw\nMDBaMB0xDjAMBgNVBAoMBVNQSVJFMQswCQYDVQQGEwJVUzBZMBMGByqGSM49AgEG\nCCqGSM49AwEHA0IABPhu36fo8zR8Na7xuC0v8qrwDjJJy/Nth3uY8Ujb70wTIZ+p\nqtQPNwT+ATj5DnXY1n97YBJfljCTbwabVztyAbSjNDAyMA8GA1UdEwEB/wQFMAMB\nAf8wHwYDVR0RBBgwFoYUc3BpZmZlOi8vZXhhbXBsZS5vcmcwCgYIKoZIzj0EAwID\nSQAwRgIhAOCQ9elfPJjrYR6wqnuDbcbLqE2/OEQ95er2HTp4cT0FAiEAy9fn5GWX\nXnuYP+c+/nwylq53vvHqjd/ZOO6BEhrbPRw=\n-----END CERTIFICATE-----\n";

/// The SHA-256 of the dump.
pub(super) const DIGEST: &[u8] =
    b"b193c9bedad7c8e7202a6332e134b93bda8069a2a40583fc84d60962bc0c28a0\n";

/// A dump of no domain.
pub(super) const EMPTY: &[u8] = b"\x00\x00\x00\x09a\x00\x00\x00\x00\x00\x00\x00\x00";

/// Its SHA-256.
pub(super) const EMPTY_DIGEST: &[u8] =
    b"9cf4b161f3571e751912f9a78ae2015c4fb288afe59c798f5452a18d6254c893\n";

/// A dump of two domains that lacks the second.
pub(super) const SHORT: &[u8] =
    b"\x00\x00\x00\x09a\x00\x00\x00\x00\x00\x00\x00\x02\x00\x00\x01\x19i\x01a{\"keys\":[{\"crv\":\"P-256\",\"kty\":\"EC\",\"use\":\"x509-svid\",\"x\":\"AAAAAAAAAAAAAAAAAAAAAAAAAAAAAAAAAAAAAAAAAAA\",\"x5c\":[\"MAA=\"],\"y\":\"AAAAAAAAAAAAAAAAAAAAAAAAAAAAAAAAAAAAAAAAAAA\"},{\"e\":\"AQAB\",\"kid\":\"j1\",\"kty\":\"RSA\",\"n\":\"AQAB\",\"use\":\"jwt-svid\"}],\"spiffe_refresh_hint\":2,\"spiffe_sequence\":1}";

/// A document of which everything is kept.
pub(super) const WHOLE: &[u8] =
    b"{\"keys\":[{\"crv\":\"P-256\",\"kty\":\"EC\",\"use\":\"x509-svid\",\"x\":\"AAAAAAAAAAAAAAAAAAAAAAAAAAAAAAAAAAAAAAAAAAA\",\"x5c\":[\"MAA=\"],\"y\":\"AAAAAAAAAAAAAAAAAAAAAAAAAAAAAAAAAAAAAAAAAAA\"},{\"e\":\"AQAB\",\"kid\":\"j1\",\"kty\":\"RSA\",\"n\":\"AQAB\",\"use\":\"jwt-svid\"}],\"spiffe_refresh_hint\":2,\"spiffe_sequence\":1}";

/// A document of which an entry is ignored.
pub(super) const PART: &[u8] =
    b"{\"keys\":[{\"crv\":\"P-256\",\"kty\":\"EC\",\"use\":\"x509-svid\",\"x\":\"AAAAAAAAAAAAAAAAAAAAAAAAAAAAAAAAAAAAAAAAAAA\",\"x5c\":[\"MAA=\"],\"y\":\"AAAAAAAAAAAAAAAAAAAAAAAAAAAAAAAAAAAAAAAAAAA\"},{\"kty\":\"OKP\"}]}";

/// A document that gives an authority twice.
pub(super) const TWICE: &[u8] =
    b"{\"keys\":[{\"crv\":\"P-256\",\"kty\":\"EC\",\"use\":\"x509-svid\",\"x\":\"AAAAAAAAAAAAAAAAAAAAAAAAAAAAAAAAAAAAAAAAAAA\",\"x5c\":[\"MAA=\"],\"y\":\"AAAAAAAAAAAAAAAAAAAAAAAAAAAAAAAAAAAAAAAAAAA\"},{\"crv\":\"P-256\",\"kty\":\"EC\",\"use\":\"x509-svid\",\"x\":\"AAAAAAAAAAAAAAAAAAAAAAAAAAAAAAAAAAAAAAAAAAA\",\"x5c\":[\"MAA=\"],\"y\":\"AAAAAAAAAAAAAAAAAAAAAAAAAAAAAAAAAAAAAAAAAAA\"}],\"spiffe_sequence\":0}";
